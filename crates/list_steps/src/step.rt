// One tag, or the text before the next one.
ghost use Rattle.std.specs.Prelude.{◌≡◌, ◌+◌, ◌≤◌, length, take, drop};
ghost use Rattle.text.specs.Bounds.{number_most};
ghost use Rattle.text.specs.Cells.{cells};
ghost use Rattle.list_blocks.specs.Tags.{rest_of};
ghost use Rattle.list_blocks.specs.declared.tag.Tag.TheVariants.{Item, Closer};
ghost use Rattle.list_steps.specs.Standing.{kept, step_by, take_by, pushed, Spaced, ReadyIn, StepsIn, OpensIn};

use crate::close::{Areas, Machine};
use list_blocks::item::Kind;
use list_blocks::tag::Tag;
use text::WorkAt;
use text::area::copy_within;

impl Machine {
    // Appends n cells of the source to the innermost content.
    fn keep(&mut self, i: WorkAt, n: usize, areas: Areas, work: &mut [u8], numbers: &mut [u32])
        requires { ReadyIn work.old numbers.old areas self.old × (i.0 + n ≤ areas.base.0) }
        ensures { StepsIn (kept (take n (drop i.0 (cells work.old numbers.old)))) 0 areas work.old numbers.old self.old work.new numbers.new self.new }
    {
        self.at = copy_within(work, numbers, i, WorkAt(i.0 + n), areas.end.0, self.at);
    }

    // Opens a list: a frame more in the table.
    fn open_list(&mut self, ordered: bool, numbers: &mut [u32])
        requires { (self.old.at.0 ≤ number_most) × ((self.old.first.0 ≤ number_most) × ((self.old.top.0 + 3 ≤ length numbers.old) × (length numbers.old ≤ number_most))) }
        ensures { OpensIn ordered numbers.old self.old numbers.new self.new × (self.new.top.0 ≡ self.old.top.0 + 3) }
    {
        let top = self.top.0;
        let second = self.second;
        numbers[top] = self.first.0 as u32;
        numbers[top + 1] = u32::from(Kind { ordered, second });
        numbers[top + 2] = self.at.0 as u32;
        self.first = self.top;
        self.top = WorkAt(top + 3);
        self.second = false;
    }

    // Begins an item; outside a list `[*]` stays text.
    fn start_item(&mut self, i: WorkAt, areas: Areas, work: &mut [u8], numbers: &mut [u32])
        requires { ReadyIn work.old numbers.old areas self.old × ((i.0 + 3 ≤ areas.base.0) × (self.old.top.0 + 1 ≤ length numbers.old)) }
        ensures { StepsIn (step_by Item (drop i.0 (cells work.old numbers.old))) 1 areas work.old numbers.old self.old work.new numbers.new self.new }
    {
        if self.top.0 == areas.table.0 {
            self.keep(i, 3, areas, work, numbers);
            return;
        }
        numbers[self.top.0] = self.at.0 as u32;
        self.top = WorkAt(self.top.0 + 1);
        self.second = false;
    }

    // Ends a list; outside a list `[/list]` stays text.
    fn end_list(&mut self, i: WorkAt, areas: Areas, work: &mut [u8], numbers: &mut [u32])
        requires { ReadyIn work.old numbers.old areas self.old × ((i.0 + 7 ≤ areas.base.0) × Spaced areas (length work.old) (length numbers.old)) }
        ensures { StepsIn (step_by Closer (drop i.0 (cells work.old numbers.old))) 0 areas work.old numbers.old self.old work.new numbers.new self.new }
    {
        if self.top.0 == areas.table.0 {
            self.keep(i, 7, areas, work, numbers);
            return;
        }
        self.close_list(areas, work, numbers);
    }

    // Takes n cells behind the first, at place i of the source: one tag, or text.
    pub fn step(
        &mut self,
        tag: Tag,
        n: usize,
        i: WorkAt,
        areas: Areas,
        work: &mut [u8],
        numbers: &mut [u32],
    )
        requires { ReadyIn work.old numbers.old areas self.old × (((i.0 + (1 + n) ≤ areas.base.0) × (rest_of tag ≤ n)) × ((self.old.top.0 + pushed tag ≤ length numbers.old) × Spaced areas (length work.old) (length numbers.old))) }
        ensures { StepsIn (take_by tag n (drop i.0 (cells work.old numbers.old))) (pushed tag) areas work.old numbers.old self.old work.new numbers.new self.new }
    {
        match tag {
            Tag::Opener(_, ordered) => self.open_list(ordered, numbers),
            Tag::Item => self.start_item(i, areas, work, numbers),
            Tag::Closer => self.end_list(i, areas, work, numbers),
            Tag::Plain => self.keep(i, n + 1, areas, work, numbers),
        }
    }
}
