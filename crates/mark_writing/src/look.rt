// Looking through a slot. A slot is given by the number of its first item. Its loops are whiles: a mark is passed over in one step.
ghost use Rattle.std.specs.Prelude.{◌≡◌, true, ◌+◌, ◌-◌, ◌*◌, ◌≤◌, ◌<◌, length, get_or};
ghost use Rattle.mark_tags.specs.Marks.{next, next_byte, marked};
ghost use Rattle.mark_tags.specs.Flat.{within, slot_at, Held, Ready};
ghost use Rattle.mark_writing.specs.OneText.{SomeText, OneText};
ghost use Rattle.mark_writing.specs.Table.{held-prop};

use mark_pieces::piece::is_touching;
use text::PostAt;

// What is written next in a slot.
#[derive(Clone, Copy)]
pub enum Next {
    Nothing,
    Byte(u8),
    // with content
    Mark,
}

impl Next {
    ghost use Rattle.mark_writing.specs.Looked.{as_next};

    // The byte that is written next: `{` for a mark, 256 for nothing.
    pub fn byte(self) -> usize
        ensures { (result ≡ next_byte (as_next self)) × (result ≤ 256) }
    {
        match self {
            Next::Nothing => 256,
            Next::Byte(b) => usize::from(b),
            Next::Mark => usize::from(b'{'),
        }
    }

    pub fn is_mark(self) -> bool
        ensures { result ≡ marked (as_next self) }
    {
        match self {
            Next::Mark => true,
            Next::Nothing | Next::Byte(_) => false,
        }
    }
}

// An item.
#[derive(Clone, Copy)]
pub enum Seen {
    // the end of its slot
    End,
    // from a up to e, with its last byte
    Text {
        a: PostAt,
        e: PostAt,
        touches: bool,
        last: u8,
    },
    // nothing is written up to an item
    Skip(usize),
    // with content
    Mark,
}

// The items of a text: k of them, in the numbers behind the codes of its cells.
#[derive(Clone, Copy)]
pub struct Items<'a> {
    pub text: &'a [u8],
    pub nums: &'a [u32],
    pub k: usize,
    ghost held: { Held text.now nums.now k } by { held-prop text.now nums.now k },
}

impl Items<'_> {
    ghost use Rattle.mark_writing.specs.Looked.{as_next, Answer, Touches, Looked};

    // The code of item i.
    fn code(self, i: usize) -> u32
        requires { i < self.k }
        ensures { result ≡ get_or self.entry.nums.now (2 * length self.entry.text.now + 2 + i) 0 }
    {
        self.nums[2 * self.text.len() + 2 + i]
    }

    // Where item i starts, and the one before it ends.
    fn bound(self, i: usize) -> usize
        requires { i ≤ self.k }
        ensures { result ≡ get_or self.entry.nums.now (length self.entry.text.now + i) 0 }
    {
        self.nums[self.text.len() + i] as usize
    }

    // The byte at a place of the text.
    fn byte(self, at: usize) -> u8
        requires { at < length self.text.now }
        ensures { result ≡ get_or self.entry.text.now at 0 }
    {
        self.text[at]
    }

    // Whether item i is a text that is not empty.
    fn is_text(self, i: usize) -> bool
        requires { i < self.k }
        ensures { result ≡ true → SomeText self.entry.text.now self.entry.nums.now i }
    {
        (self.code(i) == 0) & (self.bound(i) < self.bound(i + 1))
    }

    // The item behind a slot that holds no text, at no depth; none where it holds some.
    fn content(self, from: usize, depth: usize) -> Option<usize>
        requires { Ready self.text.now self.nums.now self.k from depth }
        ensures { Answer self.entry.text.now self.entry.nums.now self.entry.k from result }
    {
        let mut i = from;
        while i < self.k {
            let code = self.code(i);
            if code == 2 {
                return Some(i + 1);
            }
            if code == 0 {
                if self.bound(i) < self.bound(i + 1) {
                    return None;
                }
                i += 1;
            } else if code < 4 {
                i += 1;
            } else {
                i = self.content(i + 1, depth - 1)?;
            }
        }
        Some(i)
    }

    // The same, at once where the slot begins with a text that is not empty.
    fn content_of(self, from: usize, depth: usize) -> Option<usize>
        requires { Ready self.text.now self.nums.now self.k from depth }
        ensures { Answer self.entry.text.now self.entry.nums.now self.entry.k from result }
    {
        if from < self.k && self.is_text(from) {
            return None;
        }
        self.content(from, depth)
    }

    // What is written next in a slot.
    pub fn next_of(self, from: usize, depth: usize) -> Next
        requires { Ready self.text.now self.nums.now self.k from depth }
        ensures { as_next result ≡ next (within (slot_at self.entry.text.now self.entry.nums.now self.entry.k from)) }
    {
        let mut i = from;
        while i < self.k {
            let code = self.code(i);
            if code == 2 {
                return Next::Nothing;
            }
            if code == 0 {
                let a = self.bound(i);
                if a < self.bound(i + 1) {
                    return Next::Byte(self.byte(a));
                }
                i += 1;
            } else if code < 4 {
                i += 1;
            } else {
                match self.content(i + 1, depth - 1) {
                    None => return Next::Mark,
                    Some(behind) => i = behind,
                }
            }
        }
        Next::Nothing
    }

    // Whether a mark is written next behind a text piece that ends at e, as far as its last byte has to do with that: if not, nothing is looked for.
    fn touches_mark(self, from: usize, depth: usize, e: PostAt) -> bool
        requires { Ready self.text.now self.nums.now self.k from depth × ((0 < e.0) × (e.0 ≤ length self.text.now)) }
        ensures { Touches self.entry.text.now self.entry.nums.now self.entry.k from result (get_or self.entry.text.now (e.0 - 1) 0) }
    {
        if is_touching(true, self.text[e.0 - 1]) {
            self.next_of(from, depth).is_mark()
        } else {
            false
        }
    }

    // Whether the slot that starts at item `from` is one text that is not empty, and ends.
    pub fn is_one_text(self, from: usize) -> bool
        requires { from ≤ self.k }
        ensures { result ≡ true → OneText self.entry.text.now self.entry.nums.now self.entry.k from }
    {
        if self.k <= from + 1 {
            return false;
        }
        self.is_text(from) & (self.code(from + 1) == 2)
    }

    // Looks at item i.
    pub fn look(self, i: usize, depth: usize) -> Seen
        requires { Ready self.text.now self.nums.now self.k i depth × (i < self.k) }
        ensures { Looked self.entry.text.now self.entry.nums.now self.entry.k i result }
    {
        let code = self.code(i);
        if code == 2 {
            return Seen::End;
        }
        if code == 0 {
            let a = self.bound(i);
            let e = self.bound(i + 1);
            if a < e {
                return Seen::Text {
                    a: PostAt(a),
                    e: PostAt(e),
                    touches: self.touches_mark(i + 1, depth, PostAt(e)),
                    last: self.byte(e - 1),
                };
            }
            return Seen::Skip(i + 1);
        }
        if code < 4 {
            return Seen::Skip(i + 1);
        }
        match self.content_of(i + 1, depth - 1) {
            None => Seen::Mark,
            Some(behind) => Seen::Skip(behind),
        }
    }
}
