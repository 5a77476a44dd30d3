// Numbers stored at a place of a file, the least significant byte first.
ghost use Rattle.std.specs.Prelude.{◌≡◌, ◌+◌, ◌≤◌, length};
ghost use Rattle.std.proofs.lemmas.List.Edits.{sets};
ghost use Rattle.octets.specs.Octets.{little_bytes};

pub fn put_two(out: &mut [u8], at: usize, n: u32)
    requires { at + 2 ≤ length out.old }
    ensures { out.new ≡ sets out.old at (little_bytes 2 n) }
{
    out[at] = (n % 256) as u8;
    out[at + 1] = (n / 256 % 256) as u8;
}

pub fn put_four(out: &mut [u8], at: usize, n: u32)
    requires { at + 4 ≤ length out.old }
    ensures { out.new ≡ sets out.old at (little_bytes 4 n) }
{
    out[at] = (n % 256) as u8;
    out[at + 1] = (n / 256 % 256) as u8;
    out[at + 2] = (n / 256 / 256 % 256) as u8;
    out[at + 3] = (n / 256 / 256 / 256 % 256) as u8;
}
