// Stores at their maxima, looked at whole: 65,536 objects in one chain, 262,144 links, and a way back to the first object, an order-only one, or none.
#![tactic(auto)]

ghost use Rattle.store_runs.specs.Looks.{Looks};

use std::{fmt, io};
use store_link_rows::put_link;
use store_reader::{
    CHILD, KIND, ORDERS, PARENT, PER_LINK, POSITION, WIDTH, first_row, is_sound, object_bytes,
};
use store_walk::{prepare, subgraph_size};

// What there is to say of a sound store's first object: whether the object can be reached from itself, and how many bytes it reaches.
#[derive(Clone, Copy)]
pub struct Report {
    pub cycle: bool,
    pub reach: u64,
}

impl fmt::Display for Report {
    fn fmt<W: fmt::Write>(&self, f: &mut fmt::Formatter<W>) -> fmt::Result {
        let cycle = u8::from(self.cycle);
        write!(f, "sound 1, cycle {cycle}, reaches {} bytes", self.reach)
    }
}

fn main(rt: HostRuntime) -> io::Result<()> {
    let data = [0u8; 524288];
    let mut objects = [0u32; 131072];
    let mut links = [0u32; 1310720];
    let mut walk = [0u32; 131072];
    lay_objects(&mut objects);
    lay_links(&mut links, 0);
    print(
        &rt,
        "a chain with a way back: ",
        look(&data, &objects, &links, 262144, &mut walk),
    )?;
    print(
        &rt,
        "the same without its last object's links: ",
        look(&data, &objects, &links, 262140, &mut walk),
    )?;
    order_last(&mut links);
    print(
        &rt,
        "the same with order-only links of its last object: ",
        look(&data, &objects, &links, 262144, &mut walk),
    )?;
    hand_out(&rt, "its last object: ", &data, &objects, &links, 65535)?;
    hand_out(&rt, "an object behind it: ", &data, &objects, &links, 65536)?;
    lay_links(&mut links, 65536);
    print(
        &rt,
        "a link to no object: ",
        look(&data, &objects, &links, 262144, &mut walk),
    )?;
    hand_out(&rt, "its first object: ", &data, &objects, &links, 0)
}

// Objects of eight bytes each.
fn lay_objects(objects: &mut [u32; 131072]) {
    for i in 0..65536usize {
        objects[2 * i] = (8 * i) as u32;
        objects[2 * i + 1] = (8 * i + 8) as u32;
    }
}

// Four links an object, all to the next one; the last object's lead to `back`.
fn lay_links(links: &mut [u32; 1310720], back: u32) {
    for k in 0..262144usize {
        let parent = (k / 4) as u32;
        let position = (2 * (k % 4)) as u32;
        let child = if parent == 65535 { back } else { parent + 1 };
        put_link(links, k, parent, position, child);
    }
}

// The last object is placed after the first four, and leads nowhere.
fn order_last(links: &mut [u32; 1310720]) {
    for child in 0..4usize {
        let at = PER_LINK * (262140 + child);
        links[at + PARENT] = 65535;
        links[at + POSITION] = 0;
        links[at + WIDTH] = 0;
        links[at + CHILD] = child as u32;
        links[at + KIND] = 1;
    }
}

// The store with so many of its links in use.
fn look(
    data: &[u8; 524288],
    objects: &[u32; 131072],
    links: &[u32; 1310720],
    used: u32,
    walk: &mut [u32; 131072],
) -> Option<Report> {
    look_at_first(data, objects, links, [524288, 65536, used], walk)
}

// Looks at object 0 of any store: nothing is said of one that is not sound, or has no object, or has more than the scratch is for.
fn look_at_first(
    data: &[u8],
    objects: &[u32],
    links: &[u32],
    counts: [u32; 3],
    walk: &mut [u32],
) -> Option<Report> {
    if !is_sound(data, objects, links, counts) {
        return None;
    }
    if counts[1] == 0 {
        return None;
    }
    if walk.len() < 2 * (counts[1] as usize) {
        return None;
    }
    Some(walk_from_first(objects, links, counts, walk))
}

// How many bytes of an object are handed out, of the store with all of its links in use.
fn hand_out(
    rt: &impl Print,
    what: &str,
    data: &[u8; 524288],
    objects: &[u32; 131072],
    links: &[u32; 1310720],
    object: u32,
) -> io::Result<()> {
    let part = object_bytes(data, objects, links, [524288, 65536, 262144], object);
    let count = part.len();
    println!(rt; "{what}{count} bytes handed out")
}

fn print(rt: &impl Print, what: &str, report: Option<Report>) -> io::Result<()> {
    match report {
        Some(report) => println!(rt; "{what}{report}"),
        None => println!(rt; "{what}sound 0, cycle 0, reaches 0 bytes"),
    }
}

// The walk from object 0 of a sound store: it has a mark then if there is a way back.
fn walk_from_first(objects: &[u32], links: &[u32], counts: [u32; 3], walk: &mut [u32]) -> Report
    requires { Looks objects.now links.now counts walk.old }
{
    prepare(links, counts, walk);
    let count = counts[2] as usize;
    let first = first_row(links, count, 0, 0);
    let after = first_row(links, count, 0, ORDERS);
    let reach = subgraph_size(objects, links, counts, first, after, 1, walk);
    Report {
        cycle: walk[0] != 0,
        reach,
    }
}
