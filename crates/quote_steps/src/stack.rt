// The quotes that are open, at most 64.
ghost use Rattle.std.specs.Prelude.{◌≡◌, ◌<◌, ◌≤◌, List, [], ◌∷◌, length};
ghost use Rattle.text.specs.Bounds.{deep_most};
ghost use Rattle.quote_steps.specs.Stack.{topmost, Popped};
ghost use Rattle.quote_steps.specs.declared.stack.Opened.{Opened};

use std::marker::Model;
use text::bounds::DEEP_MOST;
use text::{PostAt, WorkAt};

// An open quote: where its content begins in work memory, and where its opener stands in the text.
#[derive(Clone, Copy)]
pub struct Opened {
    pub start: WorkAt,
    pub tag: PostAt,
}

#[derive(Drop)]
pub struct Stack {
    places: [Opened; DEEP_MOST],
    depth: usize,
}

// Clauses see the open quotes, innermost first.
impl Model for Stack {
    ghost Value = { List Opened };

    ghost view = { λ s. topmost s.depth s.places };

    ghost invariant = { λ s. s.depth ≤ deep_most };
}

impl Stack {
    // No quote is open.
    pub fn new() -> Self
        ensures { result ≡ [] }
    {
        let nowhere = Opened {
            start: WorkAt(0),
            tag: PostAt(0),
        };
        Stack {
            places: [nowhere; DEEP_MOST],
            depth: 0,
        }
    }

    // Opens a quote within the innermost.
    pub fn push(&mut self, quote: Opened)
        requires { length self.old < deep_most }
        ensures { self.new ≡ quote ∷ self.old }
    {
        self.places[self.depth] = quote;
        self.depth += 1;
    }

    // Takes the innermost quote off.
    pub fn pop(&mut self) -> Option<Opened>
        ensures { Popped self.old result self.new }
    {
        if self.depth == 0 {
            return None;
        }
        self.depth -= 1;
        Some(self.places[self.depth])
    }
}
