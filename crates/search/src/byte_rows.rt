// The index of a state in a pattern's table by the bytes of its word: for each byte that the pattern has, one sum says what its two
// digits add. There is room for 16 blocks of 256 sums; a pattern that finds none is summed digit by digit.
// Asks for at most 8 patterns.
ghost use Rattle.std.specs.Prelude.{◌≡◌, ◌+◌, ◌*◌, ◌/◌, ◌%◌, ◌^◌, ◌<◌, ◌≤◌, ℕ, [], slice_index, slice_index_or};
ghost use Rattle.tables.specs.Steps.{weigh};
ghost use Rattle.search.specs.ByteRows.{block_sum, BytesOf, BlockFilled, SpanFilled, PatternPlaced};

use crate::estimate::index_of;
use crate::instance::Instance;

// The blocks of a pattern: those of `count` bytes from number `first` on, which follow each other from `at` on.
#[derive(Clone, Copy)]
pub(crate) struct Span {
    pub first: usize,
    pub count: usize,
    pub at: usize,
}

// Room for 16 blocks of 256 sums, and which of them each pattern has, if any.
#[derive(Clone, Copy)]
pub(crate) struct Blocks {
    pub sums: [u16; 4096],
    pub spans: [Option<Span>; 8],
}

// Stays: `as`: a word has no `From` into an index, and `try_from` has a case that never happens. `packed_task` has the same line for its sets: as a
// public function there, with its promise, it would be longer than what it saves here.
fn lowest_byte(s: u64) -> usize
    ensures { (result ≡ s % 256) × (result < 256) }
{
    (s % 256) as usize
}

fn from_bit(s: u64, shift: usize) -> u64
    requires { shift < 64 }
    ensures { result ≡ s / 2 ^ shift }
{
    s >> shift
}

// What the bytes of a word add, from blocks that follow each other. The first block is read before the loop: most patterns have no other, and a loop over
// all of them takes a test and a step more for each entry of a table.
fn sum_blocks(sums: &[u16; 4096], at: usize, count: usize, s: u64) -> usize
    requires { (1 ≤ count) × (count ≤ 8) × (at + 256 * count ≤ 4096) }
    ensures { (result ≡ block_sum sums.now at count s) × (result ≤ 65535 * 16) }
{
    let mut i = usize::from(sums[at + lowest_byte(s)]);
    let mut rest = s / 256;
    for j in 1..count {
        i += usize::from(sums[at + 256 * j + lowest_byte(rest)]);
        rest /= 256;
    }
    i
}

// The index of a state in the table of pattern p.
pub(crate) fn index_by_bytes(instance: &Instance, s: u64, p: usize) -> usize
    requires { p < instance.now.constants.patterns }
    ensures { (result ≡ weigh (slice_index_or instance.now.weights.now p []) s) × (result ≤ 983025 * 16) }
{
    match instance.blocks.spans[p] {
        None => index_of(&instance.weights[p], s),
        Some(span) => {
            let rest = from_bit(s, 8 * span.first);
            sum_blocks(&instance.blocks.sums, span.at, span.count, rest)
        }
    }
}

// The block of a byte whose digits have these weights.
// Stays: by number: what stands there is said of the number, and over a part of `sums` a proof knows no other cell of `sums` afterwards.
fn fill_block(sums: &mut [u16; 4096], at: usize, low: u16, high: u16)
    requires { (at + 256 ≤ 4096) × (low + high ≤ 4369) }
    ensures { BlockFilled low high sums.old sums.new at }
{
    for x in 0..256u16 {
        sums[at + usize::from(x)] = x % 16 * low + x / 16 * high;
    }
}

// The blocks of a span; false if the most that a byte adds would not fit 16 bits: fifteen times its two weights.
fn fill_span(weights: &[u16; 16], sums: &mut [u16; 4096], span: Span) -> bool
    requires { (span.first + span.count ≤ 8) × (span.at + 256 * span.count ≤ 4096) }
    ensures { SpanFilled weights.now span.first span.count sums.old sums.new span.at result }
{
    for j in 0..span.count {
        let v = 2 * (span.first + j);
        let low = weights[v];
        let high = weights[v + 1];
        if low.saturating_add(high) > 4369 {
            return false;
        }
        fill_block(sums, span.at + 256 * j, low, high);
    }
    true
}

// The first variable that has a weight, and the number after the last.
fn first_used(weights: &[u16; 16]) -> usize
    ensures { (result ≤ 16) × ((v : ℕ) → v < result → slice_index weights.now v ≡ 0) }
{
    weights.iter().position(|&w| w != 0).unwrap_or(16)
}

fn end_used(weights: &[u16; 16]) -> usize
    ensures { (result ≤ 16) × ((v : ℕ) → result ≤ v → slice_index weights.now v ≡ 0) }
{
    16 - weights.iter().rev().position(|&w| w != 0).unwrap_or(16)
}

// The blocks of a pattern from `at` on, if there is room for them, and where the next ones begin.
fn place_pattern(weights: &[u16; 16], sums: &mut [u16; 4096], at: usize) -> (Option<Span>, usize)
    requires { at ≤ 4096 }
    ensures { PatternPlaced weights.now sums.old sums.new at result.0 result.1 }
{
    let first = first_used(weights) / 2;
    let end = (end_used(weights) + 1) / 2;
    if end <= first {
        return (None, at);
    }
    let count = end - first;
    if at + 256 * count > 4096 {
        return (None, at);
    }
    let span = Span { first, count, at };
    if !fill_span(weights, sums, span) {
        return (None, at);
    }
    (Some(span), at + 256 * count)
}

// The blocks of every pattern.
pub(crate) fn fill_blocks(weights: &[[u16; 16]; 8], patterns: usize, blocks: &mut Blocks)
    requires { patterns ≤ 8 }
    ensures { BytesOf weights.now patterns blocks.new }
{
    let mut at = 0usize;
    for p in 0..patterns {
        let (span, end) = place_pattern(&weights[p], &mut blocks.sums, at);
        blocks.spans[p] = span;
        at = end;
    }
}
