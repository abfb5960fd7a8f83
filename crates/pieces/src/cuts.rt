// A message cut in two at every bit, and the same message bit by bit. However it is cut, its closed state and its digest are the same.
ghost use Rattle.std.specs.Prelude.{◌≤◌};

use crate::blocks::write_blocks;
use crate::calls::Calls;
use crate::message::part;
use crate::text::{write_agreement, write_digest, write_state};
use crate::widths::width_at;
use known_answers::{block_bytes, digest_bytes, whole_digest};
use std::io;

// What an instance takes: the first bits of nine bytes, as many as `bits`.
#[derive(Clone, Copy)]
pub struct Message<'a> {
    pub instance: u32,
    pub bytes: &'a [u8; 9],
    pub bits: usize,
    ghost fits: { bits ≤ 72 },
}

impl Message<'_> {
    // Two pieces, with a piece of no bits between them and refused calls among them: an instance that is none (1), a wrong width (4), more
    // bits than there are (6), a short buffer (5), a squeeze before the message is closed (3), and a piece and a finish once it is (3, 3).
    fn in_two(&self, cut: usize) -> Calls
        requires { cut ≤ self.now.bits }
    {
        let instance = self.instance;
        let length = digest_bytes(instance);
        let left = self.bits - cut;
        let width = width_at(instance, cut);
        let next_width = width_at(instance, cut + 1);
        let last_width = width_at(instance, cut + 2);
        let head = part(self.bytes, 0, cut);
        let tail = part(self.bytes, cut, left);
        Calls::init(0)
            .init_again(instance)
            .absorb(width, &head, cut)
            .finish(2, length)
            .absorb(width, &tail, 73)
            .absorb(next_width, &tail, 0)
            .finish(width, 3)
            .squeeze(width, 1, 0, block_bytes(instance))
            .absorb(last_width, &tail, left)
            .finish(width, length)
            .absorb(width, &head, cut)
            .finish(width, length)
    }

    // Pieces of one bit.
    fn bit_by_bit(&self) -> Calls {
        let mut calls = Calls::init(self.instance);
        for i in 0..self.bits {
            calls = calls.absorb(width_at(self.instance, i), &part(self.bytes, i, 1), 1);
        }
        calls.finish(8, digest_bytes(self.instance))
    }

    // Whether the message that is cut at a bit has the answers, the closed state and the digest of `first`.
    fn cut_agrees(&self, cut: usize, first: &Calls) -> bool
        requires { cut ≤ self.now.bits }
    {
        let calls = self.in_two(cut);
        calls.digits == first.digits && calls.same_outcome(first)
    }

    // How many of the cuts agree.
    fn agreeing(&self, first: &Calls) -> usize {
        (0..=self.bits)
            .filter(|cut| self.cut_agrees(*cut, first))
            .count()
    }

    // Whole and in pieces: the digest, then the message cut at 0, its closed state and its digest, how many cuts agree with them, whether the
    // bits one by one do, and blocks of that state.
    pub fn write_cuts(&self, rt: &impl Print, name: &str) -> io::Result<()> {
        println!(rt; "{name}, {} bits", self.bits)?;
        let bytes = self.bytes;
        let whole = whole_digest(self.instance, bytes, self.bits);
        println!(rt; "whole digest: {whole}")?;
        let first = self.in_two(0);
        write_state(rt, first.state)?;
        write_digest(rt, &first)?;
        let agree = self.agreeing(&first);
        println!(rt;
            "cut in two: answers {}, {agree} of {} cuts agree",
            first.digits,
            self.bits + 1
        )?;
        print!(rt; "bit by bit: ")?;
        write_agreement(rt, &self.bit_by_bit(), &first)?;
        write_blocks(rt, first)
    }
}
