// The losses of an attribution: counted, and listed in lent slices. Its loops are whiles, since parts differ in size.
ghost use Rattle.std.specs.Prelude.{◌≡◌, ◌+◌, ◌-◌, ◌*◌, ◌≤◌, ◌<◌, length};
ghost use Rattle.attribution_parts.specs.Parts.{parts};
ghost use Rattle.attribution_parts.specs.Attribution.{is_day, losses};
ghost use Rattle.attribution_parts.specs.declared.Kind.TheVariants.{Time};
ghost use Rattle.attribution_reading.specs.Reads.{FieldAt};
ghost use Rattle.attribution_losses.specs.Lists.{Puts, flag, record_of, is_at, used_by, passed_by, passed_loss, loss_words, Here, Told, Ran, Grouped, Lists, Listed};

use crate::put::put;
use attribution_reading::facts::{Field, Fields, Lead, has_equals, read_facts};
use attribution_reading::reader::read_part;
use day::is_seconds;

// How many losses there are, and how many bytes their fields have.
#[derive(Clone, Copy)]
pub struct Counts {
    pub losses: usize,
    pub bytes: usize,
}

// The quote that losses are of: its number, and its line.
#[derive(Clone, Copy)]
pub struct Quote {
    pub number: u32,
    pub line: u32,
}

// The bytes of a loss have been put up to `to`; the next part has this index and begins at `at`.
#[derive(Clone, Copy)]
pub struct Group {
    pub unnamed: bool,
    pub to: usize,
    pub index: usize,
    pub at: usize,
}

// Puts record k of a field whose bytes stand from `start` up to `end`, where it has any.
fn close_loss(
    records: &mut [u32],
    k: usize,
    quote: Quote,
    unnamed: bool,
    start: usize,
    end: usize,
) -> usize
    requires { (k < 4294967296) × ((start ≤ end) × (end < 4294967296)) }
    ensures { Puts records.old (5 * k) records.new (5 * result) (record_of quote.number quote.line (flag unnamed) start (end - start)) × ((k ≤ result) × (result ≤ k + 1)) }
{
    if start == end {
        return k;
    }
    let size = end - start;
    put(
        &[
            quote.number,
            quote.line,
            u32::from(unnamed),
            start as u32,
            size as u32,
        ],
        records,
        5 * k,
    );
    k + 1
}

fn is_at(f: Field, i: usize) -> bool
    ensures { result ≡ is_at f i }
{
    0 < f.value.size && i == f.index
}

// Whether the field at index i is in the caption; `day`: the time is a day.
#[tactic(auto, unfolding(crate::specs::Lists::used_by))]
fn is_used(f: Fields, day: bool, i: usize) -> bool
    ensures { result ≡ used_by f day i }
{
    is_at(f.name, i)
        || is_at(f.post, i)
        || is_at(f.time, i)
        || is_at(f.id, i) && f.post.value.size == 0
        || is_at(f.date, i) && !day
}

// Puts the rest of a run, from part `first` on, each text behind a space.
fn put_run(s: &[u8], start: usize, first: usize, buf: &mut [u8], before: usize) -> Group
    requires { Here s.now first start before }
    ensures { Ran s.now first start buf.old before buf.new result }
{
    let mut run = Group {
        unnamed: true,
        to: before,
        index: first,
        at: start,
    };
    while run.at < s.len() {
        let p = read_part(s, run.at);
        if p.key.size != 0 || p.value.from != p.key.from {
            return run;
        }
        let e = put(b" ", buf, run.to);
        run.to = put(p.value.of(s), buf, e);
        run.index += 1;
        run.at = p.next;
    }
    run
}

// Puts the bytes of the loss that part i makes, if any: of a field, of a quoted text, or of the run that begins there.
fn put_group(
    s: &[u8],
    at: usize,
    i: usize,
    fields: Fields,
    day: bool,
    buf: &mut [u8],
    to: usize,
) -> Group
    requires { (at < length s.now) × (Told s.now fields day × Here s.now i at to) }
    ensures { Grouped s.now i at buf.old to buf.new result }
{
    let p = read_part(s, at);
    let none = Group {
        unnamed: false,
        to,
        index: i + 1,
        at: p.next,
    };
    if p.key.size != 0 {
        if is_used(fields, day, i) {
            return none;
        }
        let to = put(p.key.of(s), buf, to);
        return Group { to, ..none };
    }
    if fields.name.value.size == 0 {
        return none;
    }
    let to = put(p.value.of(s), buf, to);
    if p.value.from == p.key.from {
        return put_run(s, p.next, i + 1, buf, to);
    }
    Group {
        unnamed: true,
        to,
        ..none
    }
}

// Lists the losses from part `first` on, which begins at `start`, behind those before.
fn put_groups(
    s: &[u8],
    start: usize,
    first: usize,
    fields: Fields,
    day: bool,
    quote: Quote,
    records: &mut [u32],
    loss_bytes: &mut [u8],
    before: Counts,
) -> Counts
    requires { (before.losses + length s.now < 4294967296) × (Told s.now fields day × Here s.now first start before.bytes) }
    ensures { Listed s.now first start quote.number quote.line records.old before.losses loss_bytes.old before.bytes records.new loss_bytes.new result }
{
    let mut at = start;
    let mut i = first;
    let mut listed = before;
    while at < s.len() {
        let g = put_group(s, at, i, fields, day, loss_bytes, listed.bytes);
        listed.losses = close_loss(records, listed.losses, quote, g.unnamed, listed.bytes, g.to);
        listed.bytes = g.to;
        i = g.index;
        at = g.at;
    }
    listed
}

// Whether an id field passes over a leading id.
#[tactic(auto, unfolding(crate::specs::Lists::passed_by))]
fn is_passed(lead: Lead, fields: Fields) -> bool
    ensures { result ≡ passed_by lead fields }
{
    lead.id.size != 0 && (fields.post.value.size != 0 || fields.id.value.size != 0)
}

// Lists a leading id that an id field passes over, behind the losses before.
fn put_passed(
    passed: bool,
    quote: Quote,
    records: &mut [u32],
    loss_bytes: &mut [u8],
    before: Counts,
) -> Counts
    requires { (before.losses < 4294967295) × (before.bytes < 4294967290) }
    ensures { Lists quote.number quote.line records.old before.losses loss_bytes.old before.bytes records.new result.losses loss_bytes.new result.bytes (passed_loss passed) }
{
    if !passed {
        return before;
    }
    let bytes = put(b"id", loss_bytes, before.bytes);
    Counts {
        losses: close_loss(records, before.losses, quote, false, before.bytes, bytes),
        bytes,
    }
}

pub fn is_day(s: &[u8], time: Field) -> bool
    requires { FieldAt s.now Time time }
    ensures { result ≡ is_day (parts 0 s.now) }
{
    is_seconds(time.value.of(s))
}

// Lists the losses of an attribution: records from number k on, and their bytes from `at` on. What does not fit is counted, not written.
// Without a `=` there is no field, and so nothing is lost.
pub fn put_losses(
    attribution: &[u8],
    quote: u32,
    line: u32,
    records: &mut [u32],
    k: usize,
    loss_bytes: &mut [u8],
    at: usize,
) -> Counts
    requires { (k + length attribution.now < 4294967295) × (at + 2 * length attribution.now ≤ 4294967280) }
    ensures { Lists quote line records.old k loss_bytes.old at records.new result.losses loss_bytes.new result.bytes (losses attribution.now) × ((result.losses ≤ k + length attribution.now) × (result.bytes ≤ at + 2 * length attribution.now)) }
{
    let before = Counts {
        losses: k,
        bytes: at,
    };
    if !has_equals(attribution) {
        return before;
    }
    let facts = read_facts(attribution);
    let fields = facts.fields;
    let lead = facts.lead;
    let day = is_day(attribution, fields.time);
    let quote = Quote {
        number: quote,
        line,
    };
    let c = put_passed(is_passed(lead, fields), quote, records, loss_bytes, before);
    put_groups(
        attribution,
        lead.next,
        lead.count,
        fields,
        day,
        quote,
        records,
        loss_bytes,
        c,
    )
}

// How many losses an attribution has, and how many bytes.
pub fn count_losses(attribution: &[u8]) -> Counts
    requires { length attribution.now ≤ 1073741824 }
    ensures { (result.losses ≡ length (losses attribution.now)) × (result.bytes ≡ length (loss_words (losses attribution.now))) }
{
    put_losses(attribution, 0, 0, &mut [], 0, &mut [], 0)
}
