// The pair reading: what a table says of two glyphs, or the first of the checks 1 to 5 and 11 that refuses it.
#![tactic(auto)]

ghost use Rattle.std.specs.Prelude.{◌≡◌, true, ◌++◌, Ok};
ghost use Rattle.pair_rules.specs.Table.{sets_sorted};
ghost use Rattle.pair_rules.specs.Pairs.{no_pair, pair_of};
ghost use Rattle.pair_rules.specs.Calls.{reported, pair_call};
ghost use Rattle.call_rules.specs.Answers.{numbered};
ghost use Rattle.pair_checks.specs.Checked.{checked_of};
ghost use Rattle.folds.specs.Moments.{left};
ghost use Rattle.store_rules.specs.Moments.{store_came_with, store_now_with};
ghost use Rattle.pair_values.specs.Values.{as_pair};
ghost use Rattle.pair_reading.specs.Reading.{pair_outcome, pair_checked};

use call_rules::Answer;
use pair_checks::{PairTable, check_table};
use pair_sets::linked::sets_sorted;
use pair_spots::spot_of;
use pair_values::{PairAnswer, pair_at};

// No pair: sixteen zeros.
fn no_pair() -> PairAnswer
    ensures { as_pair result ≡ no_pair }
{
    PairAnswer {
        found: false,
        first: [0i32; 8],
        second: [0i32; 8],
    }
}

// What an open table with sorted pair sets says of two glyphs.
fn pair_of(
    data: &[u8],
    objects: &[u32],
    links: &[u32],
    counts: [u32; 3],
    table: u32,
    opened: PairTable,
    first: u16,
    second: u16,
) -> PairAnswer
    requires table_value { checked_of (store_now_with «data» objects links counts) table ≡ numbered (Ok opened) }
    requires table_value_2 { sets_sorted (store_now_with «data» objects links counts) table ≡ true }
    ensures { as_pair result ≡ pair_of (store_came_with «data» objects links counts) table first second }
{
    let spot = spot_of(data, objects, links, counts, table, opened, first, second);
    let Some(spot) = spot else {
        return no_pair();
    };
    let layout = opened.layout;
    pair_at(data, objects, links, counts, layout, spot.object, spot.at)
}

// Eight numbers, and eight more behind them.
fn both(first: [i32; 8], second: [i32; 8]) -> [i32; 16]
    ensures { result ≡ first ++ second }
{
    let mut numbers = [0i32; 16];
    numbers[..8].copy_from_slice(&first);
    numbers[8..].copy_from_slice(&second);
    numbers
}

// Hands out an answer with what the pair holds.
fn report(answer: u32, pair: PairAnswer, values: &mut [i32; 16], found: &mut u32) -> u32
    ensures { pair_outcome result (left found) (left values) ≡ reported answer (as_pair pair) }
{
    let first = pair.first;
    let second = pair.second;
    *values = both(first, second);
    if pair.found {
        *found = 1;
        return answer;
    }
    *found = 0;
    answer
}

// Check 11 of a table that is open. There is no scratch: a set that stands in several slots is looked at again where another one took its place of 64.
fn check_sorted(
    data: &[u8],
    objects: &[u32],
    links: &[u32],
    counts: [u32; 3],
    table: u32,
    opened: PairTable,
) -> Result<PairTable, Answer>
    requires { checked_of (store_now_with «data» objects links counts) table ≡ numbered (Ok opened) }
    ensures { numbered result ≡ pair_checked (store_came_with «data» objects links counts) table }
{
    let layout = opened.layout;
    let mut seen = [0u32; 64];
    if !sets_sorted(data, objects, links, counts, table, layout, &mut seen) {
        return Err(Answer::UnsortedSets);
    }
    Ok(opened)
}

// The checks 1 to 5, and 11.
fn check_pairs(
    data: &[u8],
    objects: &[u32],
    links: &[u32],
    counts: [u32; 3],
    table: u32,
) -> Result<PairTable, Answer>
    ensures { numbered result ≡ pair_checked (store_came_with «data» objects links counts) table }
{
    let opened = check_table(data, objects, links, counts, table)?;
    check_sorted(data, objects, links, counts, table, opened)
}

// Reads the pair of two glyphs by a table of any store: the answer, whether there is a pair, and the sixteen numbers.
pub fn read_pair(
    data: &[u8],
    objects: &[u32],
    links: &[u32],
    counts: [u32; 3],
    table: u32,
    first: u16,
    second: u16,
    values: &mut [i32; 16],
    found: &mut u32,
) -> u32
    ensures { pair_outcome result (left found) (left values) ≡ pair_call (store_came_with «data» objects links counts) table first second }
{
    let checked = check_pairs(data, objects, links, counts, table);
    match checked {
        Err(answer) => report(u32::from(answer), no_pair(), values, found),
        Ok(opened) => {
            let pair = pair_of(data, objects, links, counts, table, opened, first, second);
            report(0, pair, values, found)
        }
    }
}
