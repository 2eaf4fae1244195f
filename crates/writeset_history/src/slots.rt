//! Slots for digests, and how a digest's slot is found.
//!
//! A probe for a digest goes from slot to slot, from the last one on to the first, and ends at the digest's slot or at
//! a free one, which takes the digest. It begins at the digest's home, a number that is mixed from the digest's bits.
//! Rising keys of a table have digests that follow one another. Their homes look random, so runs of taken slots do not
//! grow with them.

ghost use Rattle.std.specs.Prelude.{◌≡◌, ◌<◌, length, position};
ghost use Rattle.writeset_history.specs.Probing.{mixed, home_of};
ghost use Rattle.writeset_history.specs.Slots.{is_live, is_end, EndsAt, HasNoEnd};

/// A place for a digest and the number that touched it last.
#[derive(Clone, Copy, Debug)]
pub(crate) struct Slot {
    pub digest: u64,
    pub sequence: u64,
}

/// A slot that is free whatever the start is.
pub(crate) const FREE: Slot = Slot {
    digest: 0,
    sequence: 0,
};

/// Whether the slot is not free.
pub(crate) fn is_live(start: u64, slot: Slot) -> bool
    ensures { result ≡ is_live start slot }
{
    start < slot.sequence
}

/// The place of the slot that a probe for the digest ends at.
pub(crate) fn probe(slots: &[Slot], start: u64, digest: u64) -> usize
    requires { ¬ HasNoEnd slots.now start digest }
    ensures { EndsAt slots.now start digest result }
{
    let home = home_of(digest, slots.len());
    let (before, behind) = slots.split_at(home);
    match first_end(behind, start, digest) {
        Some(steps) => home + steps,
        None => first_end(before, start, digest).unwrap(),
    }
}

fn first_end(slots: &[Slot], start: u64, digest: u64) -> Option<usize>
    ensures { result ≡ position (is_end start digest) slots.now }
{
    slots
        .iter()
        .position(|slot| !is_live(start, *slot) || slot.digest == digest)
}

/// The place of the slot that a probe for the digest begins at. The number of slots is a power of two, so each slot can
/// be a home.
#[tactic(auto, unfolding(crate::specs::Probing::home_of))]
fn home_of(digest: u64, slots: usize) -> usize
    requires { 0 < slots }
    ensures value { result ≡ home_of digest slots }
    ensures within { result < slots }
{
    mixed(digest) as usize & (slots - 1)
}

/// The digest's bits, mixed as the generator SplitMix64 mixes those of its counter: no two digests give one number.
#[tactic(auto, unfolding(crate::specs::Probing::mixed))]
fn mixed(digest: u64) -> u64
    ensures { result ≡ mixed digest }
{
    let once = (digest ^ (digest >> 30)).wrapping_mul(0xbf58_476d_1ce4_e5b9);
    let twice = (once ^ (once >> 27)).wrapping_mul(0x94d0_49bb_1331_11eb);
    twice ^ (twice >> 31)
}
