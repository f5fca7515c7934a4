// What programs weigh, by what their parts weigh.
ghost use Rattle.std.specs.Prelude.{◌≡◌, ◌+◌, ◌*◌, ◌≤◌, ◌<◌, eqb};
ghost use Rattle.junior.specs.Program.{Program, kind, Leaf, One, Two, size};
ghost use Rattle.junior.specs.Figures.{times};
ghost use Rattle.table.specs.Inside.Early.{Tests};
ghost use Rattle.table.specs.Kinds.{kind_number};
ghost use Rattle.table.specs.Inside.Weighing.{Counts, Weighs, Small, counted, once_more, repeatedly, either, together};

use super::kinds::Kind;

// What a program weighs: its figures, exact below 65,536; its height; and 1 if it stops, which as a bool would be padded: writing the padding
// takes 3 to 6 per cent of loading more.
#[derive(Clone, Copy)]
pub struct Weight {
    pub generations: u32,
    pub atoms: u32,
    pub nodes: u32,
    pub parked: u32,
    pub height: u32,
    pub stops: u32,
}

impl Weight {
    // What stands in a place where none waits.
    pub const NONE: Weight = Weight {
        generations: 0,
        atoms: 0,
        nodes: 0,
        parked: 0,
        height: 0,
        stops: 0,
    };
}

// What a program of kind k without parts weighs; its test, if it has one, is decided early as e says.
pub fn single(k: Kind, e: usize) -> Weight
    ensures { (p : Program) → Leaf p → kind_number k ≡ kind p → Tests e p → Weighs result p }
{
    let node = Weight {
        generations: 0,
        atoms: 0,
        nodes: 1,
        parked: 0,
        height: 1,
        stops: 0,
    };
    match k {
        Kind::Stop => Weight { stops: 1, ..node },
        Kind::Atom => Weight { atoms: 1, ..node },
        Kind::Generate => Weight {
            generations: 1,
            ..node
        },
        Kind::Await => Weight {
            stops: u32::from(e == 0),
            ..node
        },
        _ => node,
    }
}

// How often the body of a repetition counts.
fn times_of(count: usize, stops: u32) -> u32
    requires { count < 65536 }
    ensures { (result ≡ times count (eqb stops 1)) × (result < 65536) }
{
    if stops == 1 {
        return (count as u32).min(2);
    }
    count as u32
}

fn count_times(c: u32, x: u32) -> u32
    requires { c < 65536 }
    ensures { result ≡ counted c x }
{
    (c * x.min(65536)).min(65536)
}

fn repeated(c: u32, x: Weight, stops: u32) -> Weight
    requires { (c < 65536) × (x.height ≤ 4096) }
    ensures { result ≡ repeatedly c x stops }
{
    Weight {
        generations: count_times(c, x.generations),
        atoms: count_times(c, x.atoms),
        nodes: count_times(c, x.nodes) + 1,
        parked: count_times(c, x.parked),
        height: x.height + 1,
        stops,
    }
}

// One node more, which parks `own` bytes itself.
fn once(x: Weight, own: u32, stops: u32) -> Weight
    requires { (own ≤ 16384) × Small x }
    ensures { result ≡ once_more x own stops }
{
    Weight {
        generations: x.generations,
        atoms: x.atoms,
        nodes: x.nodes + 1,
        parked: x.parked + own,
        height: x.height + 1,
        stops,
    }
}

// What counts x twice: a sum of two is small enough not to be capped before.
fn twice(x: Weight) -> Weight
    requires { Small x }
    ensures { result ≡ repeatedly 2 x 1 }
{
    Weight {
        generations: (2 * x.generations).min(65536),
        atoms: (2 * x.atoms).min(65536),
        nodes: (2 * x.nodes).min(65536) + 1,
        parked: (2 * x.parked).min(65536),
        height: x.height + 1,
        stops: 1,
    }
}

// What a program of kind k and n nodes weighs whose part weighs x. A Freezable parks 4 bytes for each of its nodes (L8).
pub fn wrapped(k: Kind, count: usize, n: usize, x: Weight) -> Weight
    requires { (count < 65536) × (n ≤ 4096) × Small x }
    ensures { (p q : Program) → One p q → Counts count p → kind_number k ≡ kind p → n ≡ size p → Weighs x q → Weighs result p }
{
    match k {
        Kind::Loop => twice(x),
        Kind::Repeat if count == 0 => repeated(0, x, 0),
        Kind::Repeat => repeated(times_of(count, x.stops), x, x.stops),
        Kind::RepeatExt => repeated(times_of(count / 16, x.stops), x, 0),
        Kind::Freezable => once(x, 4 * n as u32, 0),
        _ => once(x, 0, x.stops),
    }
}

// Four sums of the same figures, `repeated`, `once`, `sum` and `most`, stay four: one with a closure for the figures would take its bounds in clauses
// of its own, and be no plainer.
fn sum(x: Weight, y: Weight, stops: u32) -> Weight
    requires { Small x × Small y }
    ensures { result ≡ together x y stops }
{
    Weight {
        generations: x.generations + y.generations,
        atoms: x.atoms + y.atoms,
        nodes: x.nodes + y.nodes + 1,
        parked: x.parked + y.parked,
        height: x.height.max(y.height) + 1,
        stops,
    }
}

fn most(x: Weight, y: Weight, stops: u32) -> Weight
    requires { Small x × Small y }
    ensures { result ≡ either x y stops }
{
    Weight {
        generations: x.generations.max(y.generations),
        atoms: x.atoms.max(y.atoms),
        nodes: x.nodes.max(y.nodes) + 1,
        parked: x.parked.max(y.parked),
        height: x.height.max(y.height) + 1,
        stops,
    }
}

// What a program of kind k weighs whose parts weigh x and y, its test being decided early as e says: 0 never true, 2 never false.
pub fn joined(k: Kind, e: usize, x: Weight, y: Weight) -> Weight
    requires { Small x × Small y }
    ensures { (p q s : Program) → Two p q s → kind_number k ≡ kind p → Tests e p → Weighs x q → Weighs y s → Weighs result p }
{
    match k {
        Kind::When => most(
            x,
            y,
            (x.stops | u32::from(e == 0)) & (y.stops | u32::from(e == 2)),
        ),
        Kind::Until => sum(x, y, x.stops & (y.stops | u32::from(e == 0))),
        Kind::If => most(x, y, x.stops & y.stops),
        _ => sum(x, y, x.stops | y.stops),
    }
}
