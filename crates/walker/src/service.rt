// What the walked task is given: its stretches of the frame, repeated from instant 0.
ghost use Rattle.std.specs.Prelude.{◌≡◌, ◌<◌, ◌≤◌, length};
ghost use Rattle.walker.specs.Served.{served_to, units_of};
ghost use Rattle.walker.specs.Least.{LeastAt, Reached};
ghost use Rattle.walker.specs.Step.{Ready, UnitAt};

use crate::span::{self, Span};

// A frame length of the sizes, the task's stretches in order within it, and how many units they give a frame.
#[derive(Clone, Copy)]
pub(crate) struct Service<'a> {
    pub frame: u32,
    pub spans: &'a [Span],
    pub total: u64,
    ghost ready: { Ready frame spans.now },
    ghost counted: { total ≡ served_to spans.now (length spans.now) frame },
}

impl<'a> Service<'a> {
    pub(crate) fn new(frame: u32, spans: &'a [Span]) -> Service<'a>
        requires { Ready frame spans.now }
        ensures { (result.frame ≡ frame) × (result.spans.now ≡ spans.now) }
    {
        Service {
            frame,
            spans,
            total: span::served(spans, frame),
        }
    }

    // The instant of the frame that is the task's unit k, counted from 0.
    pub(crate) fn unit_at(&self, k: u64) -> u64
        requires { k < self.now.total }
        ensures { UnitAt self.now.frame self.now.spans.now k result }
    {
        let mut left = k;
        for span in self.spans {
            let len = u64::from(span.len);
            if left < len {
                return u64::from(span.start) + left;
            }
            left -= len;
        }
        unreachable!()
    }

    // The task's units before the instant e: whole frames, and what the last one gives. The remainder is below the frame, and so of 32 bits.
    pub(crate) fn units_before(&self, e: u64) -> u64
        ensures { result ≡ units_of self.now.frame self.now.spans.now e }
    {
        let f = u64::from(self.frame);
        e / f * self.total + span::served(self.spans, (e % f) as u32)
    }

    // The least instant before which the task has `goal` units: the end of the last of them, after whole frames.
    pub(crate) fn reach(&self, goal: u64) -> u64
        requires { (1 ≤ self.now.total) × (1 ≤ goal) × Reached (units_of self.now.frame self.now.spans.now) goal }
        ensures { LeastAt (units_of self.now.frame self.now.spans.now) goal result }
    {
        let last = goal - 1;
        last / self.total * u64::from(self.frame) + self.unit_at(last % self.total) + 1
    }
}
