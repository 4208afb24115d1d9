// A script that is made from a seed, line by line.
ghost use Rattle.std.specs.Prelude.{◌≡◌, ◌<◌, ◌≤◌, [], ◌∷◌, ◌++◌, length, take, IfSome, IfNone};
ghost use Rattle.zn_gen.specs.Churn.{steps_from, lines_with, due_lines, lines_to_come, churn_lines, lines_left};

use crate::lines::{Line, MOST_LINE, put_line};
use crate::steps::{MODULUS, step_behind};

/// The most steps.
pub const MOST_STEPS: u32 = 1_000_000;

/// How many files there are. Each one's handle has its number.
pub const FILES: usize = 8;

/// What the last step has left.
#[derive(Clone, Copy)]
enum Due {
    NoLine,
    CompleteAndReap,
    ReapAlone,
}

/// A script that is made from a seed. It gives its lines one after another.
#[derive(Drop)]
pub struct Churn {
    /// The file that is opened next, until the last one is open.
    next_open: u32,
    due: Due,
    /// How many steps are left.
    steps: u32,
    /// The last draw.
    draw: u32,
    /// How many blocks each file has.
    sizes: [u8; FILES],
}

/// What is due behind a line.
#[inline(always)]
fn due_behind(line: &Line) -> Due
    ensures { due_lines result ≡ lines_with line.now }
{
    match line {
        Line::Submit(_) => Due::CompleteAndReap,
        _ => Due::NoLine,
    }
}

impl Churn {
    #[tactic(auto, unfolding(crate::specs::Churn::churn_lines, crate::specs::Churn::lines_left))]
    pub fn new(seed: u64, steps: u32) -> Churn
        requires { steps ≤ MOST_STEPS }
        ensures { lines_left result ≡ churn_lines seed steps }
    {
        Churn {
            next_open: 1,
            due: Due::NoLine,
            steps,
            draw: (seed % MODULUS) as u32,
            sizes: [0; FILES],
        }
    }

    /// Takes the next step, and answers its first line.
    fn step(&mut self) -> Line
        requires { 0 < self.old.steps }
        ensures taken { steps_from self.old.steps self.old.draw self.old.sizes
            ≡ result ∷ due_lines self.new.due ++ steps_from self.new.steps self.new.draw self.new.sizes }
        ensures kept { self.new.next_open ≡ self.old.next_open }
    {
        let step = step_behind(self.draw);
        let size = self.sizes[step.file as usize];
        let line = step.line(size);
        self.due = due_behind(&line);
        self.steps -= 1;
        self.draw = step.last;
        self.sizes[step.file as usize] = step.size(size);
        line
    }

    /// Takes the next line.
    #[tactic(auto, unfolding(crate::specs::Churn::steps_from))]
    fn next_line(&mut self) -> Option<Line>
        ensures line { IfSome result (λ line. lines_to_come self.old ≡ line ∷ lines_to_come self.new) }
        ensures last { IfNone result (lines_to_come self.old ≡ []) }
        ensures end { IfNone result (self.new ≡ self.old) }
    {
        if (self.next_open as usize) < FILES {
            let file = self.next_open;
            self.next_open += 1;
            return Some(Line::Open(file));
        }
        match self.due {
            Due::CompleteAndReap => {
                self.due = Due::ReapAlone;
                Some(Line::Complete)
            }
            Due::ReapAlone => {
                self.due = Due::NoLine;
                Some(Line::Reap)
            }
            Due::NoLine if self.steps == 0 => None,
            Due::NoLine => Some(self.step()),
        }
    }

    /// Writes the next line, without a newline, into the front of the buffer, and answers its length; None exactly
    /// after the last one.
    #[tactic(auto, unfolding(crate::specs::Churn::lines_left))]
    pub fn next(&mut self, out: &mut [u8]) -> Option<usize>
        requires { MOST_LINE ≤ length out.old }
        ensures room { length out.new ≡ length out.old }
        ensures line { IfSome result (λ n. lines_left self.old ≡ take n out.new ∷ lines_left self.new) }
        ensures short { IfSome result (λ n. n ≤ MOST_LINE) }
        ensures last { IfNone result (lines_left self.old ≡ []) }
        ensures end { IfNone result (self.new ≡ self.old) }
    {
        let line = self.next_line()?;
        Some(put_line(out, &line))
    }
}
