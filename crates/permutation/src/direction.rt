// Steps, and steps undone: each direction is a type, so that the way from a buffer through the cells and the words and back is written once.
ghost use Rattle.std.specs.Prelude.{◌≡◌, Bool, true, false, if◌then◌else◌};
ghost use Rattle.quark.specs.Instance.{instance_of};
ghost use Rattle.words.specs.Instances.{named};
ghost use Rattle.words.specs.Words.{fits};
ghost use Rattle.permutation.specs.leaf.Core.{CellsReached};
ghost use Rattle.permutation.specs.leaf.Several.{ran_or_undone_words};

use crate::cells::{RegisterCells, Steps};
use words::RegisterWords;
use words::instances::Instance;

pub trait Direction {
    // Whether the steps are undone.
    ghost inverse: { Bool };

    // `count` steps of the serial form. L begins at its value before the first of them.
    fn one_by_one(state: &mut RegisterCells, instance: Instance, count: u32)
        ensures { CellsReached inverse (named instance) count state.old state.new };

    // The steps of the word form, steps.width at a time. L begins at its value before the first of them.
    // Words that do not fit stay as they were.
    fn together(steps: Steps, state: RegisterWords) -> RegisterWords
        ensures { result ≡ (if fits steps.instance steps.width steps.count state then ran_or_undone_words inverse (instance_of steps.instance).taps steps.count state else state) };
}

pub struct Forward;

pub struct Back;

impl Direction for Forward {
    ghost inverse = { false };

    fn one_by_one(state: &mut RegisterCells, instance: Instance, count: u32) {
        state.run(instance, count);
    }

    // Not inlined, so that the groups of steps have the machine's registers to themselves: S at width 8 is a tenth faster.
    #[inline(never)]
    fn together(steps: Steps, state: RegisterWords) -> RegisterWords {
        words::run(steps.instance, steps.width, steps.count, state)
    }
}

impl Direction for Back {
    ghost inverse = { true };

    fn one_by_one(state: &mut RegisterCells, instance: Instance, count: u32) {
        state.undo(instance, count);
    }

    // Not inlined, so that the groups of steps have the machine's registers to themselves: S at width 8 is a tenth faster.
    #[inline(never)]
    fn together(steps: Steps, state: RegisterWords) -> RegisterWords {
        words::undo(steps.instance, steps.width, steps.count, state)
    }
}
