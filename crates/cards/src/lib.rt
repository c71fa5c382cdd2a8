// Cards: lists of moments stored in groups of eight records, the counts first, and read again. Numbers are bit patterns.
#![tactic(auto)]

pub mod places;
pub mod reading;
pub mod writing;

ghost use Rattle.std.specs.Prelude.{◌≡◌};
ghost use Rattle.refusals.specs.Number.{number};
ghost use Rattle.cards.specs.Calls.{bad_lengths, Writes, Reads};

use places::GROUPED;
use point_moments::MOMENTS;
use refusals::Refusal;

// The most records of a list.
pub const MOST_RECORDS: usize = 65_536;

// Reason 3.
fn bad_lengths(from: usize, to: usize) -> bool
    ensures { result ≡ bad_lengths from to }
{
    from % MOMENTS != 0 || from / MOMENTS > MOST_RECORDS || to != from
}

// The card of a list of moments.
pub fn card_write(moments: &[u64], card: &mut [u64]) -> Result<(), Refusal>
    ensures { Writes moments.now card.old (number result) card.new }
{
    if bad_lengths(moments.len(), card.len()) {
        return Err(Refusal::WrongLength);
    }
    let groups = moments.len() / GROUPED;
    writing::write_groups(moments, card, groups);
    writing::write_last(moments, card, groups * GROUPED);
    Ok(())
}

// The list of moments of a card.
pub fn card_read(card: &[u64], moments: &mut [u64]) -> Result<(), Refusal>
    ensures { Reads card.now moments.old (number result) moments.new }
{
    if bad_lengths(card.len(), moments.len()) {
        return Err(Refusal::WrongLength);
    }
    let groups = card.len() / GROUPED;
    reading::read_groups(card, moments, groups);
    reading::read_last(card, moments, groups * GROUPED);
    Ok(())
}
