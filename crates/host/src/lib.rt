// What a host in C or Rust calls: functions of one lent record, or two, scalars and slices over the proved calls. What a host
// gives as a byte may be any byte, and each answer is plain numbers.
#![tactic(auto, using(crate::proofs::Codes::coded))]

pub mod answers;
pub mod backed;
pub mod calls;
pub mod files;
pub mod settings;

ghost use Rattle.std.specs.Prelude.{◌≡◌};

// The version of the calls and of what crosses with them: it rises with each change of either.
#[unsafe(no_mangle)]
pub extern "C" fn vusatica_version() -> u32
    ensures { result ≡ 2 }
{
    2
}
