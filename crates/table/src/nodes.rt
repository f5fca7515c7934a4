// Refusals 5 to 8. One loop from the last node to the first judges each record and weighs the program that stands there. What a
// program weighs waits in a row until its parent, which comes later, takes it up: at most 64 places, and the program that begins first on
// top, so a node finds its parts there. A table that is refused is looked at again from its first node on.
ghost use Rattle.std.specs.Prelude.{Err, ◌≡◌, cond, ◌&&◌, List, ℕ, ◌+◌, ◌≤◌, ◌<◌, eqb, leb};
ghost use Rattle.table.specs.declared.TableRefusal.TheVariants.{TooHeavy};
ghost use Rattle.table.specs.Records.{nodes, configurations, events, size_at};
ghost use Rattle.table.specs.Kinds.{kind_number};
ghost use Rattle.table.specs.Good.{children, argument_limit, is_laid_out, good_node};
ghost use Rattle.table.specs.Verdict.{nodes_verdict, accepted_with, preorder, first_such, deep};
ghost use Rattle.table.specs.Inside.{Framed, ConfigurationsGood, LowestBad};
ghost use Rattle.table.specs.Inside.Early.{AllKnown};
ghost use Rattle.table.specs.Inside.Weighing.{tree_at, height, SizedWhole, Within, HeadIs, AllGood};
ghost use Rattle.table.specs.Inside.Weighing.{Row, Roomy, ToPlace, Places};

use super::early::{early_for, find_early};
use super::kinds::{Kind, kind_of};
use super::records::{argument_at, head_at, second_at, size_at};
use super::weights::{Weight, joined, single, wrapped};
use super::{Figures, TableRefusal};

pub fn check_nodes(table: &[u8], n: usize, m: usize, v: usize) -> Result<Figures, TableRefusal>
    requires framed { Framed table.now n m v }
    requires configurations_good { ConfigurationsGood table.now }
    ensures { result ≡ nodes_verdict table.now }
{
    if size_at(table, 0) == n {
        return check_whole(table, n, m, v);
    }
    Err(TableRefusal::BadNode(0))
}

// Record 0 has size N. Rows for few configurations and few nodes are cleared in less time than those for all that a table can have.
fn check_whole(table: &[u8], n: usize, m: usize, v: usize) -> Result<Figures, TableRefusal>
    requires { SizedWhole table.now n m v }
    ensures { result ≡ nodes_verdict table.now }
{
    if m <= 64 {
        let mut few = [0u8; 64];
        find_early(table, n, m, &mut few);
        if n <= 8 {
            let mut short = [Weight::NONE; 8];
            return check_tests_known(table, n, m, v, &few, &mut short);
        }
        let mut long = [Weight::NONE; 64];
        return check_tests_known(table, n, m, v, &few, &mut long);
    }
    let mut many = [0u8; 2048];
    find_early(table, n, m, &mut many);
    let mut long = [Weight::NONE; 64];
    check_tests_known(table, n, m, v, &many, &mut long)
}

// One row has when each configuration can be decided early, the other has room for weights.
fn check_tests_known(
    table: &[u8],
    n: usize,
    m: usize,
    v: usize,
    early: &[u8],
    row: &mut [Weight],
) -> Result<Figures, TableRefusal>
    requires sized_whole { SizedWhole table.now n m v }
    requires all_known { AllKnown table.now early.now }
    requires roomy { Roomy row.old n }
    ensures { result ≡ nodes_verdict table.now }
{
    // The lowest Loop whose body doesn't stop; n, behind all nodes, as long as none is met: one comparison keeps the lowest.
    let mut endless = n;
    let mut top = 0;
    for i in (0..n).rev() {
        let Some(now) = place(table, m, v, i, early, row, &mut endless, top) else {
            return Err(refused(table, n, m, v));
        };
        top = now;
    }
    let x = row[0];
    if x.height > 64 {
        return Err(refused(table, n, m, v));
    }
    if endless < n {
        return Err(TableRefusal::EndlessLoop(endless));
    }
    weighed(x)
}

// Refusal 8, or none.
fn weighed(x: Weight) -> Result<Figures, TableRefusal>
    ensures { result ≡ cond (leb x.generations 4094 && (leb x.atoms 4096 && (leb x.nodes 65535 && leb x.parked 16384)))
        (accepted_with x.generations x.atoms x.nodes x.parked) (Err TooHeavy) }
{
    if x.generations > 4094 {
        return Err(TableRefusal::TooHeavy);
    }
    if x.atoms > 4096 {
        return Err(TableRefusal::TooHeavy);
    }
    if x.nodes > 65535 {
        return Err(TableRefusal::TooHeavy);
    }
    if x.parked > 16384 {
        return Err(TableRefusal::TooHeavy);
    }
    Ok(Figures {
        generations: x.generations as usize,
        atoms: x.atoms as usize,
        nodes: x.nodes as usize,
        parked: x.parked as usize,
    })
}

// Node i takes up its parts, which wait on top, the first above the second, and waits. The answer is how many wait now; none if the node isn't
// good, or all places are taken. A zero byte that isn't zero makes its head no kind's number. Each kind has an arm, so that one jump decides all
// that it asks: with one call for all kinds, loading takes 1.5 to 1.9 times the instructions.
fn place(
    table: &[u8],
    m: usize,
    v: usize,
    i: usize,
    early: &[u8],
    row: &mut [Weight],
    endless: &mut usize,
    top: usize,
) -> Option<usize>
    requires framed { Framed table.now (nodes table.now) m v }
    requires to_place { ToPlace table.now row.old (nodes table.now) i top }
    requires all_known { AllKnown table.now early.now }
    ensures { Places table.now row.old row.new endless.old endless.new i result }
{
    let Ok(kind) = Kind::try_from(head_at(table, i)) else {
        return None;
    };
    match kind {
        Kind::Nothing => place_as(table, m, v, i, Kind::Nothing, early, row, endless, top),
        Kind::Stop => place_as(table, m, v, i, Kind::Stop, early, row, endless, top),
        Kind::Atom => place_as(table, m, v, i, Kind::Atom, early, row, endless, top),
        Kind::Seq => place_as(table, m, v, i, Kind::Seq, early, row, endless, top),
        Kind::Par => place_as(table, m, v, i, Kind::Par, early, row, endless, top),
        Kind::Loop => place_as(table, m, v, i, Kind::Loop, early, row, endless, top),
        Kind::Repeat => place_as(table, m, v, i, Kind::Repeat, early, row, endless, top),
        Kind::Generate => place_as(table, m, v, i, Kind::Generate, early, row, endless, top),
        Kind::Await => place_as(table, m, v, i, Kind::Await, early, row, endless, top),
        Kind::When => place_as(table, m, v, i, Kind::When, early, row, endless, top),
        Kind::Until => place_as(table, m, v, i, Kind::Until, early, row, endless, top),
        Kind::Control => place_as(table, m, v, i, Kind::Control, early, row, endless, top),
        Kind::Local => place_as(table, m, v, i, Kind::Local, early, row, endless, top),
        Kind::Freezable => place_as(table, m, v, i, Kind::Freezable, early, row, endless, top),
        Kind::If => place_as(table, m, v, i, Kind::If, early, row, endless, top),
        Kind::RepeatExt => place_as(table, m, v, i, Kind::RepeatExt, early, row, endless, top),
    }
}

// Node i, whose head is the number of kind k. A Loop whose body doesn't stop is the lowest so far.
#[inline(always)]
fn place_as(
    table: &[u8],
    m: usize,
    v: usize,
    i: usize,
    k: Kind,
    early: &[u8],
    row: &mut [Weight],
    endless: &mut usize,
    top: usize,
) -> Option<usize>
    requires framed { Framed table.now (nodes table.now) m v }
    requires to_place { ToPlace table.now row.old (nodes table.now) i top }
    requires head_is { HeadIs table.now i k }
    requires all_known { AllKnown table.now early.now }
    ensures { Places table.now row.old row.new endless.old endless.new i result }
{
    let count = k.children();
    if !good_as(table, m, v, i, k, laid_behind(table, i, count, top)) {
        return None;
    }
    match count {
        0 => {
            if top == 64 {
                return None;
            }
            row[top] = single(k, early_for(table, i, k, early));
            Some(top + 1)
        }
        1 => {
            let x = row[top - 1];
            keep_endless(endless, i, k, x.stops);
            row[top - 1] = wrapped(k, argument_at(table, i), size_at(table, i), x);
            Some(top)
        }
        _ => {
            let e = early_for(table, i, k, early);
            row[top - 2] = joined(k, e, row[top - 1], row[top - 2]);
            Some(top - 1)
        }
    }
}

// Node i, of kind k, is the lowest Loop so far whose body doesn't stop, if it is one.
fn keep_endless(endless: &mut usize, i: usize, k: Kind, stops: u32)
    ensures { endless.new ≡ cond (eqb (kind_number k) 5 && eqb stops 0) i endless.old }
{
    match k {
        Kind::Loop if stops == 0 => *endless = i,
        _ => {}
    }
}

fn good_node(table: &[u8], n: usize, m: usize, v: usize, i: usize) -> bool
    requires framed { Framed table.now n m v }
    requires within { Within table.now n i }
    ensures { result ≡ good_node table.now i }
{
    match Kind::try_from(head_at(table, i)) {
        Ok(kind) => good_as(table, m, v, i, kind, laid_out(table, n, i, kind.children())),
        Err(_) => false,
    }
}

// Node i, whose head is the number of kind k, is good, laid out or not as the caller has found.
#[inline(always)]
fn good_as(table: &[u8], m: usize, v: usize, i: usize, k: Kind, laid: bool) -> bool
    requires framed { Framed table.now (nodes table.now) m v }
    requires within { Within table.now (nodes table.now) i }
    requires head_is { HeadIs table.now i k }
    requires laid_is { laid ≡ is_laid_out (size_at table.now) (nodes table.now) i (children (kind_number k)) }
    ensures { result ≡ good_node table.now i }
{
    argument_at(table, i) < limit_of(k, m, v) && laid
}

// Its children, so many, are the first of the programs that stand behind it, and its size is one more than theirs. Apart from `laid_out`, which
// doesn't know how many stand there and asks twice where there are two children: with that one alone, loading takes 2 to 4 per cent more.
#[inline(always)]
fn laid_behind(table: &[u8], i: usize, count: usize, top: usize) -> bool
    requires within { Within table.now (nodes table.now) i }
    requires row { Row table.now top (i + 1) }
    ensures { result ≡ is_laid_out (size_at table.now) (nodes table.now) i count }
{
    if count == 0 {
        return size_at(table, i) == 1;
    }
    if count == 1 {
        return top > 0 && size_at(table, i) == 1 + size_at(table, i + 1);
    }
    if top < 2 {
        return false;
    }
    let first = 1 + size_at(table, i + 1);
    size_at(table, i) == first + size_at(table, i + first)
}

// Its children, so many, stand among n nodes, and its size is one more than theirs.
fn laid_out(table: &[u8], n: usize, i: usize, count: usize) -> bool
    requires { Within table.now n i }
    ensures { result ≡ is_laid_out (size_at table.now) n i count }
{
    if count == 0 {
        return size_at(table, i) == 1;
    }
    if n <= i + 1 {
        return false;
    }
    let first = 1 + size_at(table, i + 1);
    if count == 1 {
        return size_at(table, i) == first;
    }
    let second = i + first;
    if n <= second {
        return false;
    }
    size_at(table, i) == first + size_at(table, second)
}

// Why a table is refused that has a record that isn't good, or a node that is too deep.
fn refused(table: &[u8], n: usize, m: usize, v: usize) -> TableRefusal
    requires sized_whole { SizedWhole table.now n m v }
    requires too_deep { AllGood table.now → 64 < height (tree_at table.now 0) }
    ensures { Err result ≡ nodes_verdict table.now }
{
    match first_bad(table, n, m, v) {
        Some(bad) => TableRefusal::BadNode(bad),
        None => TableRefusal::TooDeep(first_deep(table, 0, 1)),
    }
}

fn first_bad(table: &[u8], n: usize, m: usize, v: usize) -> Option<usize>
    requires { SizedWhole table.now n m v }
    ensures { LowestBad (good_node table.now) (nodes table.now) result }
{
    for i in 0..n {
        if !good_node(table, n, m, v, i) {
            return Some(i);
        }
    }
    None
}

// What the argument of a kind is below.
#[tactic(auto, unfolding(crate::specs::Good::argument_limit))]
fn limit_of(kind: Kind, m: usize, v: usize) -> usize
    ensures { (t : List ℕ) → m ≡ configurations t → v ≡ events t → argument_limit t (kind_number kind) ≡ result }
{
    match kind {
        Kind::Nothing | Kind::Stop | Kind::Seq | Kind::Par | Kind::Loop => 1,
        Kind::Atom | Kind::Repeat => 65536,
        Kind::Generate | Kind::Control | Kind::Local | Kind::Freezable => v,
        Kind::Await | Kind::When | Kind::Until => m,
        Kind::If => 16,
        Kind::RepeatExt => 4096,
    }
}

// The first node deeper than 64 of the program at node i, which stands at depth d; the node behind that program if none is: there a second child
// begins, and one comparison tells both.
fn first_deep(table: &[u8], i: usize, d: usize) -> usize
    requires all_good { AllGood table.now }
    requires shallow { (i < nodes table.now) × (d ≤ 65) }
    ensures { result ≡ i + first_such deep (preorder d (tree_at table.now i)) }
{
    if d > 64 {
        return i;
    }
    let count = kind_of(table, i).children();
    if count == 0 {
        return i + 1;
    }
    let found = first_deep(table, i + 1, d + 1);
    if count == 1 {
        return found;
    }
    let second = second_at(table, i);
    if found < second {
        return found;
    }
    first_deep(table, second, d + 1)
}

// How many children kind k has; none where no kind has that number.
pub fn children_of(k: usize) -> usize
    ensures { children k ≡ result }
{
    match Kind::try_from(k) {
        Ok(kind) => kind.children(),
        Err(_) => 0,
    }
}
