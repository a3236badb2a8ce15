//! What a run is in the midst of.

ghost use Rattle.std.specs.Prelude.{◌≡◌, ◌∷◌, [], OnOk, MatchOption};
ghost use Rattle.evo_interpreter.specs.Frames.{newest_takes};

use crate::text::Text;
use crate::words::Words;
use std::alloc::{AllocError, Global};
use std::marker::Model;

/// A function that was entered and has called another: where it goes on, its words, and the word of the frame below it from
/// which on its result goes.
#[derive(Drop)]
pub struct Frame {
    pub function: u64,
    pub at: u64,
    pub words: Words,
    pub to: u64,
}

/// Frames, the newest first. The words of frames that were left are kept, so that new frames need no memory of their own.
#[derive(Drop)]
pub struct Frames {
    frames: Vec<Frame>,
    spare: Vec<Words>,
}

impl Model for Frames {
    ghost use Rattle.std.specs.Prelude.{List, reverse};
    ghost use Rattle.evo_interpreter.specs.declared.state.Frame.{Frame};
    ghost use Rattle.evo_interpreter.specs.Frames.{declared_frame_code};
    ghost use Rattle.std.specs.Coded.{coded_list};

    ghost Value = { List Frame };

    ghost coded = { coded_list declared_frame_code };

    ghost view = { λ f. reverse f.frames.items };
}

impl Frames {
    /// No frames.
    pub fn new(alloc: Global) -> Frames
        ensures { result ≡ [] }
    {
        Frames {
            frames: Vec::new(alloc),
            spare: Vec::new(alloc),
        }
    }

    /// Puts a frame before the others.
    pub fn push(&mut self, frame: Frame) -> Result<(), AllocError>
        ensures { OnOk result (self.new ≡ frame ∷ self.old) }
    {
        self.frames.push(frame)?;
        Ok(())
    }

    /// Takes the newest frame away, where there is one.
    pub fn pop(&mut self) -> Option<Frame>
        ensures { MatchOption result ((self.old ≡ []) × (self.new ≡ [])) (λ f. self.old ≡ f ∷ self.new) }
    {
        self.frames.pop()
    }

    /// Whether so many words lie inside of the newest frame from a place on.
    pub fn takes(&self, at: u64, count: u64) -> bool
        ensures { result ≡ newest_takes self.now at count }
    {
        match self.frames.last() {
            Some(frame) => frame.words.has(at, count),
            None => false,
        }
    }

    /// No words, in the place of those of a frame that was left.
    pub fn fresh(&mut self, alloc: Global) -> Words
        ensures none { result ≡ [] }
        ensures kept { self.new ≡ self.old }
    {
        match self.spare.pop() {
            Some(mut words) => {
                words.clear();
                words
            }
            None => Words::new(alloc),
        }
    }

    /// Keeps the place of words that no frame has any more.
    pub fn retire(&mut self, mut words: Words)
        ensures { self.new ≡ self.old }
    {
        words.clear();
        match self.spare.push(words) {
            Ok(()) => {}
            Err(_) => {}
        }
    }
}

/// An object: its class, and the words of its properties.
#[derive(Drop)]
pub struct Object {
    pub class: Text,
    pub words: Words,
}

/// The frame that runs, the frames below it, the objects in the order in which they were made, and the ticks that are left.
#[derive(Drop)]
pub struct State {
    pub top: Frame,
    pub below: Frames,
    pub objects: Vec<Object>,
    pub ticks: u64,
}

impl State {
    /// No words, in the place of those of a frame that was left.
    pub fn fresh(&mut self, alloc: Global) -> Words
        ensures none { result ≡ [] }
        ensures kept { self.new ≡ self.old }
    {
        self.below.fresh(alloc)
    }
}
