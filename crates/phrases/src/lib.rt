// A phrase: a stretch of a channel's part of the lent memory (request 11/12). Each function takes every value of its
// arguments, and equals a definition in specs/Phrases.antt.
#![tactic(auto)]

ghost use Rattle.std.specs.Prelude.{◌≡◌, ◌+◌, ◌≤◌, ◌<◌, IfSome, length, take, slice_set};
ghost use Rattle.std.specs.List.{list_all};
ghost use Rattle.phrases.specs.Phrases.{
  no_phrase,
  empty_from,
  no_samples,
  is_over_by,
  reach_of,
  clear_of,
  reach_from,
  apart_of,
  room_of,
  no_phrases,
  others_of,
  good_phrases,
  beside_of_nothing,
  beside_with,
  beside_of,
};
ghost use Rattle.phrases.specs.Gathering.{first_from, moved_down, gathering_of};

// Where it begins, and how many samples it has.
#[derive(Clone, Copy)]
pub struct Phrase {
    pub start: usize,
    pub length: usize,
}

// How many a channel has.
pub const PHRASES: usize = 8;

// The places of a memory from one up to another.
#[derive(Clone, Copy)]
pub struct Room {
    pub from: usize,
    pub to: usize,
}

impl Phrase {
    pub fn none() -> Self
        ensures { result ≡ no_phrase }
    {
        Self {
            start: 0,
            length: 0,
        }
    }

    // One without samples that begins there.
    pub fn empty(start: usize) -> Self
        ensures { result ≡ empty_from start }
    {
        Self { start, length: 0 }
    }

    #[tactic(auto, unfolding(crate::specs::Phrases::no_samples))]
    pub fn is_empty(self) -> bool
        ensures { result ≡ no_samples self }
    {
        self.length == 0
    }

    // How far it reaches: an empty one nowhere. The sum of one that lies in a memory doesn't wrap.
    #[tactic(auto, unfolding(crate::specs::Phrases::reach_of, crate::specs::Phrases::no_samples))]
    pub fn reach(self) -> usize
        ensures { result ≡ reach_of self }
    {
        if self.length == 0 {
            return 0;
        }
        std::num::wrapping_add_usize(self.start, self.length)
    }

    // Whether it lies within the capacity and, if it has samples, not before a place.
    #[tactic(auto, unfolding(crate::specs::Phrases::clear_of))]
    pub fn clear(self, upto: usize, capacity: usize) -> bool
        ensures { result ≡ clear_of upto capacity self }
    {
        if self.is_empty() {
            return self.start <= capacity;
        }
        (upto <= self.start) & self.ends_by(capacity)
    }

    // How far phrases reach, the last of which it is; they reached up to a place before it.
    #[tactic(auto, unfolding(crate::specs::Phrases::reach_from))]
    pub fn reach_from(self, upto: usize) -> usize
        ensures { result ≡ reach_from upto self }
    {
        if self.is_empty() {
            return upto;
        }
        self.reach()
    }

    // Whether it has no sample in common with another: of two with samples the one that begins first ends by the other.
    pub fn apart(self, other: Phrase) -> bool
        ensures { result ≡ apart_of self other }
    {
        if self.is_empty() | other.is_empty() {
            return true;
        }
        if self.start <= other.start {
            self.ends_by(other.start)
        } else {
            other.ends_by(self.start)
        }
    }

    // Whether it ends at that place or before it.
    pub fn ends_by(self, place: usize) -> bool
        ensures { result ≡ is_over_by place self }
    {
        if self.start <= place {
            self.length <= place - self.start
        } else {
            false
        }
    }

    // Where it lies in a memory of that size.
    pub fn room(self, size: usize) -> Room
        ensures value { result ≡ room_of self size }
        ensures from_le_to { (result.from ≤ result.to) × (result.to ≤ size) }
    {
        let from = self.start.min(size);
        Room {
            from,
            to: from + self.length.min(size - from),
        }
    }
}

// What a channel's other phrases say to one that begins at a place: how far they reach, and where the first of them begins
// that begins there or behind it.
#[derive(Clone, Copy)]
pub struct Beside {
    pub behind: usize,
    pub next: usize,
}

impl Beside {
    // Before any is looked at: there is room up to the capacity.
    pub fn none(capacity: usize) -> Self
        ensures { result ≡ beside_of_nothing capacity }
    {
        Self {
            behind: 0,
            next: capacity,
        }
    }

    // With one more of them.
    #[tactic(auto, unfolding(crate::specs::Phrases::beside_with))]
    pub fn with(self, place: usize, p: Phrase) -> Self
        ensures { result ≡ beside_with place self p }
    {
        let next = if !p.is_empty() & (place <= p.start) {
            self.next.min(p.start)
        } else {
            self.next
        };
        Self {
            behind: self.behind.max(p.reach()),
            next,
        }
    }
}

// The table without the chosen phrase's entry, which isn't looked at; where it isn't in use, all are empty.
#[tactic(auto, unfolding(crate::specs::Phrases::others_of))]
pub fn others(table: [Phrase; 8], several: bool, chosen: u8) -> [Phrase; 8]
    ensures { result ≡ others_of several chosen table }
{
    if !several {
        return none();
    }
    with(table, chosen, Phrase::none())
}

pub fn none() -> [Phrase; 8]
    ensures { result ≡ no_phrases }
{
    [Phrase::none(); 8]
}

pub fn with(table: [Phrase; 8], k: u8, p: Phrase) -> [Phrase; 8]
    ensures { result ≡ slice_set table k p }
{
    let mut all = table;
    let i = k as usize;
    if i < PHRASES {
        all[i] = p;
    }
    all
}

#[tactic(auto, unfolding(crate::specs::Phrases::beside_of))]
pub fn around(others: [Phrase; 8], place: usize, capacity: usize) -> Beside
    ensures { result ≡ beside_of place capacity others }
{
    others
        .iter()
        .fold(Beside::none(capacity), |b, p| b.with(place, *p))
}

// Whether a phrase has no sample in common with those before the i-th.
fn apart_from(all: [Phrase; 8], p: Phrase, i: usize) -> bool
    requires { i ≤ 8 }
    ensures { result ≡ list_all (λ q. apart_of p q) (take i all) }
{
    all[..i].iter().all(|q| p.apart(*q))
}

// Whether phrases lie within the capacity, and no two have a sample in common.
pub fn good(all: [Phrase; 8], capacity: usize) -> bool
    ensures { result ≡ good_phrases capacity all }
{
    let mut ok = true;
    for i in 0..PHRASES {
        let p = all[i];
        ok = ok & (p.ends_by(capacity) & apart_from(all, p, i));
    }
    ok
}

// The number of the phrase that begins first of those that begin at a place or behind it, if one does.
fn first_from(all: [Phrase; 8], place: usize) -> Option<usize>
    ensures value { result ≡ first_from place all }
    ensures bound { IfSome result (λ k. k < 8) }
{
    let mut found = None;
    for i in 0..PHRASES {
        let p = all[i];
        if !p.is_empty() & (place <= p.start) & found.is_none_or(|k| p.start < all[k].start) {
            found = Some(i);
        }
    }
    found
}

// Moves n words down, from one place to another that is not above it.
fn move_down(data: &mut [u32], from: usize, to: usize, n: usize)
    requires { (to ≤ from) × (from + n ≤ length «data».old) }
    ensures { «data».new ≡ moved_down from to n «data».old }
{
    data.copy_within(from..from + n, to);
}

// Moves the phrases down, in the order of their places, until no room is between them. An empty one stays.
pub fn gather(all: [Phrase; 8], data: &mut [u32]) -> [Phrase; 8]
    ensures value { result ≡ (gathering_of all «data».old).phrases }
    ensures data_after { «data».new ≡ (gathering_of all «data».old).memory }
{
    let mut moved = all;
    let mut from = 0;
    let mut to = 0;
    for turn in 0..PHRASES {
        if let Some(k) = first_from(moved, from) {
            let p = moved[k];
            let room = p.room(data.len());
            let n = room.to - room.from;
            move_down(data, room.from, to, n);
            moved[k] = Phrase {
                start: to,
                length: p.length,
            };
            from = room.to;
            to += n;
        }
    }
    moved
}
