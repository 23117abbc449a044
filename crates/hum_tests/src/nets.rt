//! Nets of plans: over links of several sizes, in several orders, over readers and writers that fail, and turn
//! by turn.
ghost use Rattle.std.specs.Prelude.{◌≤◌, length};

use crate::compared::{holds, same, same_bytes};
use crate::sources::Pieces;
use hum_net::{
    Leftmost, Marked, Net, Order, Outcome, Rightmost, RunResult, parse_plan, run_bundle,
};
use std::alloc::Global;
use std::io;
use std::io::{Error, ErrorKind, Write};
use std::process::Abort;

/// Takes so many bytes a call, and fails after so many calls.
#[derive(Drop)]
struct Page {
    text: Vec<u8>,
    each: usize,
    good: usize,
}

impl Page {
    /// One that takes all.
    fn new(alloc: Global) -> Page {
        Page {
            text: Vec::new(alloc),
            each: usize::MAX,
            good: usize::MAX,
        }
    }
}

impl Write for Page {
    fn write(&mut self, buf: &[u8]) -> io::Result<usize> {
        if self.good == 0 {
            return Err(Error::from(ErrorKind::BrokenPipe));
        }
        self.good -= 1;
        let n = self.each.min(buf.len());
        self.text.extend_from_slice(&buf[..n])?;
        Ok(n)
    }

    fn flush(&mut self) -> io::Result<()> {
        if self.good == 0 {
            return Err(Error::from(ErrorKind::BrokenPipe));
        }
        self.good -= 1;
        Ok(())
    }
}

/// Picks an actor that isn't there, so that the leftmost that is ready has each turn.
#[derive(Drop)]
struct Astray;

impl Order for Astray {
    ghost picks = { λ _order ready. length ready };

    ghost after = { λ order _ready. order };

    fn pick(&mut self, ready: &[bool]) -> usize {
        ready.len()
    }
}

/// A bundle, what it writes, its status, and the line that is told.
type Row<'a> = (&'a [u8], &'static [u8], u8, &'static str);

const ROWS: &[Row<'static>] = &[
    (
        b"out: read a | trans -d 1 -c 2\n--- a\n**kern\n*k[]\n4e\n4B-\n8bb\n*-\n",
        b"**kern\n*Trd1c2\n*k[]\n4f#\n4c\n8ccc#\n*-\n",
        0,
        "",
    ),
    (
        b"out: read a | context -n 2\n--- a\n**x\na\n*^\nb\tc\n*v\t*v\nd\n*-\n",
        b"**x\na b\n*^\nb d\tc d\n*v\t*v\n.\n*-\n",
        0,
        "",
    ),
    (
        b"out: read a | timebase -t 16\n--- a\n**kern\n8c\n=2\n8d\n4e\n*-\n",
        b"**kern\n*tb16\n8c\n.\n=2\n8d\n.\n4e\n.\n.\n.\n*-\n",
        0,
        "",
    ),
    (BESIDE, BESIDE_TEXT, 0, ""),
    (
        b"out: read a | timebase -t 4\n--- a\n**kern\n*^\n4c\t2e\n*v\t*v\n4d\n*-\n",
        b"**kern\n*tb4\n*^\n4c\t2e\n*v\t*v\n.\n4d\n*-\n",
        0,
        "",
    ),
    (
        b"p: read a\nq: read b\nout: assemble p q\n--- a\n**x\n1\n2\n*-\n--- b\n**y\n7\n",
        b"**x\t**y\n1\t7\n",
        1,
        "humpipe: stage 2 (read), line 3: P8",
    ),
    (
        b"p: read a\nq: read b\nout: assemble p q\n--- a\n**x\n*-\n",
        b"",
        3,
        "humpipe: stage 2 (read): cannot open",
    ),
];

/// Two scores side by side.
const BESIDE: &[u8] = b"p: read a\nq: read b\nout: assemble p q\n\
--- a\n**x\n*^\n1\t2\n*v\t*v\n*-\n--- b\n**y\n*^\n7\t8\n*v\t*v\n9\n*-\n";

const BESIDE_TEXT: &[u8] =
    b"**x\t**y\n*^\t*\n*\t*\t*^\n1\t2\t7\t8\n*v\t*v\t*\t*\n*\t*v\t*v\n.\t9\n*-\t*-\n";

// A bundle in this order writes this and ends so.
fn check_in<O: Order>(rt: &impl Abort, alloc: Global, row: &Row<'_>, link: u16, order: &mut O)
    requires least { 1 ≤ link }
    requires most { link ≤ 4096 }
{
    let (bundle, want, status, line) = *row;
    let mut page = Page::new(alloc);
    let (outcome, _writer) = run_bundle(alloc, bundle, link, order, Marked::new(&mut page));
    same_bytes(rt, &page.text, want, link);
    same(rt, outcome.status(), status, link);
    let told = outcome.message(alloc).expect(rt, "memory");
    same_bytes(rt, told.as_bytes(), line.as_bytes(), link);
}

// The same in each order.
fn check_row(rt: &impl Abort, alloc: Global, row: &Row<'_>, link: u16)
    requires least { 1 ≤ link }
    requires most { link ≤ 4096 }
{
    check_in(rt, alloc, row, link, &mut Leftmost);
    check_in(rt, alloc, row, link, &mut Rightmost);
    check_in(rt, alloc, row, link, &mut Astray);
}

#[test]
fn orders_and_links_change_nothing(rt: HostRuntime) {
    for row in ROWS {
        check_row(&rt, rt.alloc(), row, 1);
        check_row(&rt, rt.alloc(), row, 2);
        check_row(&rt, rt.alloc(), row, 16);
        check_row(&rt, rt.alloc(), row, 4_096);
    }
}

#[test]
fn the_lowest_stage_is_told_behind_900_lines(rt: HostRuntime) {
    let mut bundle = Vec::new(rt.alloc());
    bundle
        .extend_from_slice(b"out: read a | rid -l | mint\n--- a\n**kern\n4cd\n")
        .expect(&rt, "memory");
    for _ in 0..897 {
        bundle.extend_from_slice(b"4c\n").expect(&rt, "memory");
    }
    bundle.push(b'\n').expect(&rt, "memory");
    let line = "humpipe: stage 1 (read), line 900: S1";
    let row: Row<'_> = (&bundle, b"**mint\n", 1, line);
    check_row(&rt, rt.alloc(), &row, 1);
    check_row(&rt, rt.alloc(), &row, 2);
    check_row(&rt, rt.alloc(), &row, 4_096);
}

/// A plan, and its scores in the order of the stages that read them.
type Score = &'static [u8];

type Asked = (&'static [u8], &'static [Score], &'static [u8]);

const ONE: Score = b"**kern\n*k[]\n4e\n4B-\n8bb\n*-\n";

const CRLF: Score = b"**kern\r\n*k[]\r\n4e\r\n4B-\r\n8bb\r\n*-";

const MOVED: &[u8] = b"**kern\n*Trd1c2\n*k[]\n4f#\n4c\n8ccc#\n*-\n";

const BARS: Score = b"**kern\n!!up\n4c\n=1\n4d\n*k[]\n=2\n4e\n==\n*-\n";

const SPLIT: Score = b"**x\n*^\n1\t2\n*v\t*v\n*-\n";

const OTHER: Score = b"**y\n*^\n7\t8\n*v\t*v\n9\n*-\n";

const TWO: &[u8] = b"p: read a\nq: read b\nout: assemble p q\n";

/// Plans over scores, and what they write.
const ASKED: &[Asked] = &[
    (b"out: read a | trans -d 1 -c 2\n", &[ONE], MOVED),
    (
        b"out: read a | context -n 2\n",
        &[b"**x\na\n*^\nb\tc\n*v\t*v\nd\n*-\n"],
        b"**x\na b\n*^\nb d\tc d\n*v\t*v\n.\n*-\n",
    ),
    (
        b"out: read a | timebase -t 16\n",
        &[b"**kern\n8c\n=2\n8d\n4e\n*-\n"],
        b"**kern\n*tb16\n8c\n.\n=2\n8d\n.\n4e\n.\n.\n.\n*-\n",
    ),
    (TWO, &[SPLIT, OTHER], BESIDE_TEXT),
    (
        b"out: read a | yank -n '^=' -r 1\n",
        &[BARS],
        b"**kern\n=1\n4d\n*k[]\n*-\n",
    ),
];

/// How the scores are read: so many bytes a read, and how many reads of the score of this place, from 0,
/// are good; all of the others.
#[derive(Clone, Copy)]
struct Reads {
    size: usize,
    place: usize,
    good: usize,
}

/// All reads are good.
const GOOD: Reads = Reads {
    size: 7,
    place: 0,
    good: usize::MAX,
};

type Readers = Vec<Marked<Pieces<'static>>>;

fn readers(rt: &impl Abort, alloc: Global, scores: &[Score], reads: Reads) -> Readers {
    let mut readers = Vec::new(alloc);
    for (place, text) in scores.iter().enumerate() {
        let good = if place == reads.place {
            reads.good
        } else {
            usize::MAX
        };
        let source = Pieces {
            text: *text,
            size: reads.size,
            good,
        };
        readers.push(Marked::new(source)).expect(rt, "memory");
    }
    readers
}

type PageNet<'a> = Net<Marked<Pieces<'static>>, Marked<&'a mut Page>>;

// The net of a plan over these readers, which writes to this page.
fn net<'a>(
    rt: &impl Abort,
    alloc: Global,
    plan: &[u8],
    readers: Readers,
    page: &'a mut Page,
    link: u16,
) -> PageNet<'a>
    requires least { 1 ≤ link }
    requires most { link ≤ 4096 }
{
    let plan = parse_plan(alloc, plan).expect(rt, "a plan");
    let count = plan.reads();
    if count != readers.len() {
        panic!(rt; "{count} stages read a score");
    }
    match Net::new(alloc, plan, readers, Marked::new(page), link) {
        Ok(net) => net,
        Err(_page) => panic!(rt; "memory"),
    }
}

// Runs a plan over these scores, on this page.
fn run_on<O: Order>(
    rt: &impl Abort,
    alloc: Global,
    asked: &Asked,
    reads: Reads,
    page: &mut Page,
    order: &mut O,
) -> RunResult {
    let (plan, scores, _want) = *asked;
    let readers = readers(rt, alloc, scores, reads);
    let mut net = net(rt, alloc, plan, readers, page, 2);
    net.run(order)
}

fn is_finished(end: RunResult) -> bool {
    matches!(end, RunResult::Finished)
}

#[test]
fn one_byte_a_read(rt: HostRuntime) {
    let asked = (
        b"out: read a | trans -d 1 -c 2\n" as &[u8],
        &[CRLF] as &[Score],
        MOVED,
    );
    let mut page = Page::new(rt.alloc());
    let reads = Reads { size: 1, ..GOOD };
    let result = run_on(&rt, rt.alloc(), &asked, reads, &mut page, &mut Leftmost);
    holds(&rt, is_finished(result), "it ends well");
    same_bytes(&rt, &page.text, MOVED, "one byte a read");
}

// What is written where a read of this score fails is a prefix, and that read is told; where all are made
// before, it is the whole. Answers whether a read has failed.
fn check_failed_read(rt: &impl Abort, alloc: Global, asked: &Asked, reads: Reads) -> bool {
    let mut page = Page::new(alloc);
    let result = run_on(rt, alloc, asked, reads, &mut page, &mut Leftmost);
    let want = asked.2;
    match result {
        RunResult::Finished => {
            same_bytes(rt, &page.text, want, reads.good);
            false
        }
        RunResult::Read(stage) => {
            same(
                rt,
                usize::from(stage),
                reads.place.wrapping_add(1),
                reads.good,
            );
            holds(rt, want.starts_with(&page.text), reads.good);
            true
        }
        _ => panic!(rt; "no other end"),
    }
}

#[test]
fn each_read_fails_in_turn(rt: HostRuntime) {
    for asked in ASKED {
        for place in 0..asked.1.len() {
            let mut failed = 0;
            for good in 0..40 {
                let reads = Reads {
                    size: 7,
                    place,
                    good,
                };
                if check_failed_read(&rt, rt.alloc(), asked, reads) {
                    failed = good + 1;
                }
            }
            holds(&rt, failed > 2, "some reads have failed");
        }
    }
}

// What is written on a page that fails or takes too little is a prefix, and that is told.
fn check_failed_write(
    rt: &impl Abort,
    alloc: Global,
    asked: &Asked,
    each: usize,
    good: usize,
) -> bool {
    let mut page = Page {
        text: Vec::new(alloc),
        each,
        good,
    };
    let result = run_on(rt, alloc, asked, GOOD, &mut page, &mut Rightmost);
    let want = asked.2;
    match result {
        RunResult::Finished => {
            same_bytes(rt, &page.text, want, good);
            false
        }
        RunResult::Write => {
            holds(rt, want.starts_with(&page.text), good);
            true
        }
        _ => panic!(rt; "no other end"),
    }
}

#[test]
fn each_write_fails_in_turn(rt: HostRuntime) {
    for asked in ASKED {
        for each in [1usize, usize::MAX] {
            let mut failed = 0;
            for good in 0..200 {
                if !check_failed_write(&rt, rt.alloc(), asked, each, good) {
                    break;
                }
                failed = good + 1;
            }
            // the flush is the last call
            holds(&rt, failed > 3 && failed < 200, "some writes have failed");
        }
        holds(
            &rt,
            check_failed_write(&rt, rt.alloc(), asked, 0, usize::MAX),
            "no byte is taken",
        );
    }
}

// Runs two scores side by side whose readers both fail in their first read.
fn first_failed<O: Order>(rt: &impl Abort, alloc: Global, order: &mut O) -> RunResult {
    let mut page = Page::new(alloc);
    let mut readers = Vec::new(alloc);
    for text in [SPLIT, OTHER] {
        let source = Pieces {
            text,
            size: 7,
            good: 0,
        };
        readers.push(Marked::new(source)).expect(rt, "memory");
    }
    let mut net = net(rt, alloc, TWO, readers, &mut page, 16);
    net.run(order)
}

#[test]
fn the_order_says_which_read_fails_first(rt: HostRuntime) {
    let left = first_failed(&rt, rt.alloc(), &mut Leftmost);
    holds(&rt, matches!(left, RunResult::Read(1)), "leftmost");
    let right = first_failed(&rt, rt.alloc(), &mut Rightmost);
    holds(&rt, matches!(right, RunResult::Read(2)), "rightmost");
    let astray = first_failed(&rt, rt.alloc(), &mut Astray);
    holds(&rt, matches!(astray, RunResult::Read(1)), "astray");
}

// A run that fails has status 3 and prints this.
fn check_failure(rt: &(impl Abort + AllocGlobal), ended: RunResult, want: &'static [u8]) {
    let outcome = Outcome::Run(ended);
    same(rt, outcome.status(), 3, want);
    let told = format!(in rt.alloc(); "{outcome}").expect(rt, "memory");
    same_bytes(rt, told.as_bytes(), want, want);
}

#[test]
fn failures_are_told(rt: HostRuntime) {
    let asked = (TWO, &[SPLIT, OTHER] as &[Score], BESIDE_TEXT);
    let mut page = Page::new(rt.alloc());
    let reads = Reads {
        size: 7,
        place: 1,
        good: 0,
    };
    let result = run_on(&rt, rt.alloc(), &asked, reads, &mut page, &mut Leftmost);
    check_failure(&rt, result, b"humpipe: stage 2 (read): read failed");
    same_bytes(&rt, &page.text, b"", "nothing is written");
    let mut page = Page {
        text: Vec::new(rt.alloc()),
        each: 1,
        good: 1,
    };
    let result = run_on(&rt, rt.alloc(), &asked, GOOD, &mut page, &mut Leftmost);
    check_failure(&rt, result, b"humpipe: write failed");
    same_bytes(&rt, &page.text, b"*", "one byte is written");
}

// What is seen of a net at a moment: links keep to their size, two scores side by side wait at most with
// one record each, and one is ready unless the run is over. Answers the first actor that is.
fn look(rt: &impl Abort, net: &PageNet<'_>, link: usize, turns: u64) -> Option<usize> {
    same(rt, net.actors(), 4, "three stages and the sink");
    same(rt, net.turns(), turns, "one a turn");
    let mut first = None;
    for k in 0..net.actors() {
        holds(rt, net.linked(k) <= link, "a link keeps to its size");
        holds(rt, net.held(k) <= 2, "one of each source");
        if k != 2 {
            same(rt, net.held(k), 0, "only assemble holds records");
        }
        if net.ready(k) && first.is_none() {
            first = Some(k);
        }
    }
    same(
        rt,
        net.over(),
        first.is_none(),
        "one is ready until it is over",
    );
    same(
        rt,
        net.result().is_none(),
        first.is_some(),
        "and then it has ended",
    );
    first
}

// Steps two scores side by side to the end, from the left, and answers how many turns that took.
fn step(rt: &impl Abort, alloc: Global, page: &mut Page, link: u16) -> u64
    requires least { 1 ≤ link }
    requires most { link ≤ 4096 }
{
    let readers = readers(rt, alloc, &[SPLIT, OTHER], GOOD);
    let mut net = net(rt, alloc, TWO, readers, page, link);
    for turns in 0..1_000 {
        let Some(k) = look(rt, &net, usize::from(link), turns) else {
            holds(
                rt,
                matches!(net.result(), Some(RunResult::Finished)),
                "it ends well",
            );
            holds(
                rt,
                is_finished(net.run(&mut Rightmost)),
                "a run that is over ends again so",
            );
            same(rt, net.turns(), turns, "and makes no turn");
            return turns;
        };
        if k < net.actors() {
            if net.ready(k) {
                net.turn(k);
            }
        }
    }
    panic!(rt; "no end")
}

#[test]
fn a_net_is_stepped(rt: HostRuntime) {
    let mut page = Page::new(rt.alloc());
    let one = step(&rt, rt.alloc(), &mut page, 1);
    same_bytes(&rt, &page.text, BESIDE_TEXT, "links of one record");
    let mut page = Page::new(rt.alloc());
    let many = step(&rt, rt.alloc(), &mut page, 4_096);
    same_bytes(&rt, &page.text, BESIDE_TEXT, "long links");
    same(&rt, one, many, "as many turns");
}
