// What the program `thread` lists of a converted post. A listing is written as every text is; its bytes have no origins.
#![tactic(auto)]

ghost use Rattle.std.specs.Prelude.{◌≡◌, [], ◌∷◌, ◌≤◌, length};
ghost use Rattle.text.specs.Bounds.{out_most, number_most};
ghost use Rattle.text.specs.Ascii.{ascii};
ghost use Rattle.text.specs.Decimal.{decimal};
ghost use Rattle.listing.specs.Listing.{escaped_byte, escaped, copied, line, field, loss, loss_lines, sizes, counts, listing, Adds, Lists};

use losses::Loss;
use text::writer::Writer;
use text::{TextAt, WorkAt};

// Appends bytes as they are.
fn put_plain(to: &mut Writer, src: &[u8])
    ensures { Lists to.old to.new src.now }
{
    for b in src {
        to.put_sign(*b);
    }
}

// Appends a byte, escaped.
fn put_byte(to: &mut Writer, b: u8)
    ensures { Lists to.old to.new (escaped_byte b) }
{
    match b {
        b'\n' => put_plain(to, b"\\n"),
        b'\\' => put_plain(to, b"\\\\"),
        _ => to.put_sign(b),
    }
}

// Appends a text, escaped.
pub fn write_escaped(to: &mut Writer, src: &[u8])
    ensures { Lists to.old to.new (escaped src.now) }
{
    for b in src {
        put_byte(to, *b);
    }
}

// The same in a pair of slices, from a place on: the place behind it, past every end where it does not fit.
pub fn put_escaped(src: &[u8], buf: &mut [u8], nums: &mut [u32], at: TextAt) -> TextAt
    ensures { Adds buf.old nums.old at.0 buf.new nums.new result.0 (escaped src.now) }
{
    let end = buf.len().min(nums.len());
    let mut to = Writer {
        bytes: buf,
        numbers: nums,
        at: WorkAt(at.0),
        end,
    };
    write_escaped(&mut to, src);
    TextAt(to.at.0)
}

// Appends a line with a number.
pub fn put_number(to: &mut Writer, key: &[u8], n: u32)
    ensures { Lists to.old to.new (line key.now (decimal n)) }
{
    put_plain(to, key);
    to.put_decimal(n);
    to.put_sign(b'\n');
}

// Appends a line with a text.
fn put_line(to: &mut Writer, key: &[u8], value: &[u8])
    ensures { Lists to.old to.new (line key.now (escaped value.now)) }
{
    put_plain(to, key);
    write_escaped(to, value);
    to.put_sign(b'\n');
}

// Appends the four lines of a loss, whose field stands in the loss bytes.
fn put_loss(to: &mut Writer, x: Loss, words: &[u8])
    ensures { Lists to.old to.new (loss x.quote x.line x.unnamed (field x.start x.length words.now)) }
{
    let start = (x.start as usize).min(words.len());
    let end = (x.start as usize + x.length as usize).min(words.len());
    put_number(to, b"quote=", x.quote);
    put_number(to, b"line=", x.line);
    put_number(to, b"unnamed=", x.unnamed);
    put_line(to, b"field=", &words[start..end]);
}

// Appends the lines of losses.
fn put_losses(to: &mut Writer, records: &[Loss], words: &[u8])
    ensures { Lists to.old to.new (loss_lines words.now records.now) }
{
    for x in records {
        put_loss(to, *x, words);
    }
}

// Appends the lines of a text's length, and of how many of its bytes are copied and written.
fn put_sizes(to: &mut Writer, size: u32, copied: u32)
    requires { copied ≤ size }
    ensures { Lists to.old to.new (sizes size copied) }
{
    put_number(to, b"length=", size);
    put_number(to, b"copied=", copied);
    put_number(to, b"written=", size - copied);
}

// Appends the listing of a converted post: its text with its origins, its losses and their bytes.
pub fn write_listing(to: &mut Writer, text: &[u8], origins: &[u32], records: &[Loss], words: &[u8])
    requires same_length { length text.now ≡ length origins.now }
    requires text_fits { length text.now ≤ out_most }
    requires losses_fit { length records.now ≤ number_most }
    ensures { Lists to.old to.new (listing text.now origins.now records.now words.now) }
{
    put_number(to, b"result=", 0);
    put_sizes(to, text.len() as u32, count_copied(origins) as u32);
    put_number(to, b"losses=", records.len() as u32);
    put_losses(to, records, words);
    put_line(to, b"text=", text);
}

// The same in a pair of slices, from a place on: the place behind it, past every end where it does not fit.
pub fn put_listing(
    text: &[u8],
    origins: &[u32],
    records: &[Loss],
    words: &[u8],
    buf: &mut [u8],
    nums: &mut [u32],
    at: TextAt,
) -> TextAt
    requires same_length { length text.now ≡ length origins.now }
    requires text_fits { length text.now ≤ out_most }
    requires losses_fit { length records.now ≤ number_most }
    ensures { Adds buf.old nums.old at.0 buf.new nums.new result.0 (listing text.now origins.now records.now words.now) }
{
    let end = buf.len().min(nums.len());
    let mut to = Writer {
        bytes: buf,
        numbers: nums,
        at: WorkAt(at.0),
        end,
    };
    write_listing(&mut to, text, origins, records, words);
    TextAt(to.at.0)
}

// How many bytes of a text are copied: those with an origin.
pub fn count_copied(origins: &[u32]) -> usize
    ensures { (result ≡ copied origins.now) × (result ≤ length origins.now) }
{
    origins.iter().filter(|x| **x != 0).count()
}
