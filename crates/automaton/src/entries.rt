// The ranks of the symbols, and lists of entries that stand for trees.
ghost use Rattle.std.specs.Prelude.{◌≡◌, ◌≤◌, map, length, Decides, MatchOption};
ghost use Rattle.automaton.specs.Tables.{entry_of};
ghost use Rattle.equivalence.specs.Entries.{LaidOut, WellFormed};
ghost use Rattle.equivalence.specs.Trees.{Declared, rank as rank_at};

use crate::Entry;

// The rank of a symbol, if it is declared; the symbols are numbered from 1.
pub fn rank_of(ranks: &[u32], symbol: u32) -> Option<u32>
    ensures { MatchOption result (Declared ranks.now symbol → ⊥) (λ k. Declared ranks.now symbol × (k ≡ rank_at ranks.now symbol)) }
{
    let at = symbol.checked_sub(1)?;
    ranks.get(at as usize).copied()
}

// Whether an entry keeps to the layout, with so many entries before it.
fn laid_out(ranks: &[u32], before: usize, e: &Entry) -> bool
    ensures { Decides result (LaidOut ranks.now before (entry_of e.now)) }
{
    let Some(rank) = rank_of(ranks, e.symbol) else {
        return false;
    };
    let mut named = e.children.iter().take(rank as usize);
    let mut rest = e.children.iter().skip(rank as usize);
    named.all(|&c| 1 <= c && c as usize <= before) && rest.all(|&c| c == 0)
}

// Whether a list stands for a tree over the symbols, and is at most 64 entries long.
pub fn well_formed(ranks: &[u32], entries: &[Entry]) -> bool
    ensures { Decides result (WellFormed ranks.now (map entry_of entries.now) × (length entries.now ≤ 64)) }
{
    if entries.is_empty() || entries.len() > 64 {
        return false;
    }
    entries
        .iter()
        .enumerate()
        .all(|(i, e)| laid_out(ranks, i, e))
}
