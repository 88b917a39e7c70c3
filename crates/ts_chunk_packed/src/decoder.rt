// A decoder: the samples of a chunk that are not decoded yet.
ghost use Rattle.std.specs.Prelude.{◌≡◌, ◌<◌, nat_lt, nat_le, true, false, [], ◌∷◌, take, drop, length, IfSome, IfNone};
ghost use Rattle.ts_sample.specs.Chunk.{AreInBounds};
ghost use Rattle.ts_spec.specs.Sample.{IsAscending, at_times, first_of};
ghost use Rattle.ts_chunk_packed.specs.Packed.{next, packed_from, state_from};
ghost use Rattle.ts_chunk_packed.specs.Decoder.{IsUndecoded, HasPassed, samples_from};

use crate::coding::decode;
use crate::context::Context;
use std::marker::Model;
use ts_sample::Sample;

/// The coded samples that remain, and the coding context in front of them.
#[derive(Drop)]
pub struct Decoder<'a> {
    context: Context,
    bytes: &'a [u8],
    count: u32,
}

impl<'a> Model for Decoder<'a> {
    ghost use Rattle.ts_chunk_packed.specs.Decoder.{UndecodedList, IsUndecoded, samples_from};

    ghost Value = { UndecodedList };

    ghost view = { λ r. record { state = r.context; list = samples_from r.context r.count r.bytes.now } };

    ghost invariant = { λ r. IsUndecoded r.context r.count r.bytes.now };
}

impl<'a> Decoder<'a> {
    /// A decoder of `count` samples in `bytes`, after samples with this context.
    pub fn new(context: Context, bytes: &'a [u8], count: u32) -> Decoder<'a>
        requires { IsUndecoded context count bytes.now }
        ensures state { result.state ≡ context }
        ensures list { result.list ≡ samples_from context count bytes.now }
    {
        Decoder {
            context,
            bytes,
            count,
        }
    }

    /// Takes the decoder apart: context, bytes and count.
    #[inline(always)]
    pub fn into_parts(self) -> (Context, &'a [u8], u32)
        ensures left { IsUndecoded result.0 result.2 result.1.now }
        ensures list { self.entry.list ≡ samples_from result.0 result.2 result.1.now }
    {
        let Decoder {
            context,
            bytes,
            count,
        } = self;
        (context, bytes, count)
    }

    /// Does nothing at run time. Its contract gives the caller the bounds of a borrowed decoder.
    pub fn known(&self)
        ensures { AreInBounds self.now.list }
    {
        let _count = self.count;
    }

    /// The coding context in front of the remaining samples.
    pub fn context(&self) -> &Context
        ensures { result.now ≡ self.now.state }
    {
        &self.context
    }

    /// The bytes of the remaining samples.
    pub fn bytes(&self) -> &'a [u8]
        ensures { result.now ≡ packed_from self.now.state self.now.list }
    {
        self.bytes
    }

    /// The number of remaining samples.
    pub fn len(&self) -> u32
        ensures { result ≡ length self.now.list }
    {
        self.count
    }

    /// Decodes the next sample. Returns it and the decoder after it.
    #[inline(always)]
    pub fn split_first(&self) -> Option<(Sample, Decoder<'a>)>
        ensures list { IfSome result (λ r. self.now.list ≡ r.0 ∷ r.1.list) }
        ensures state { IfSome result (λ r. r.1.state ≡ next self.now.state r.0) }
        ensures ended { IfNone result (self.now.list ≡ []) }
        ensures ascending { IsAscending self.now.list }
    {
        if self.count == 0 {
            return None;
        }
        let (sample, bytes) = decode(&self.context, self.bytes);
        let context = self.context.after(&sample);
        let count = self.count - 1;
        Some((
            sample,
            Decoder {
                context,
                bytes,
                count,
            },
        ))
    }

    /// Decodes the next sample and moves past it.
    pub fn next(&mut self) -> Option<Sample>
        ensures sample { result ≡ first_of self.old.list }
        ensures list { self.new.list ≡ drop 1 self.old.list }
        ensures state { self.new.state ≡ state_from self.old.state (take 1 self.old.list) }
    {
        let Some((sample, after)) = self.split_first() else {
            return None;
        };
        *self = after;
        Some(sample)
    }

    /// Skips the next sample if it is before `time`. Returns whether it did.
    #[inline(always)]
    pub fn pass(&mut self, time: u64) -> bool
        ensures one { result ≡ true → HasPassed time self.old self.new }
        ensures list { at_times (nat_le time) self.new.list ≡ at_times (nat_le time) self.old.list }
        ensures state { state_from self.new.state (at_times (λ t. nat_lt t time) self.new.list)
            ≡ state_from self.old.state (at_times (λ t. nat_lt t time) self.old.list) }
        ensures passed { result ≡ true → length self.new.list < length self.old.list }
        ensures none { result ≡ false → at_times (λ t. nat_lt t time) self.new.list ≡ [] }
        ensures all { result ≡ false → at_times (nat_le time) self.new.list ≡ self.new.list }
        ensures stays { result ≡ false → self.new ≡ self.old }
    {
        if self.count == 0 {
            return false;
        }
        let (sample, bytes) = decode(&self.context, self.bytes);
        if sample.time >= time {
            return false;
        }
        self.context = self.context.after(&sample);
        self.bytes = bytes;
        self.count -= 1;
        true
    }

    /// Skips the samples before `time`.
    pub fn pass_before(&mut self, time: u64)
        ensures list { self.new.list ≡ at_times (nat_le time) self.old.list }
        ensures state { self.new.state ≡ state_from self.old.state (at_times (λ t. nat_lt t time) self.old.list) }
    {
        while self.pass(time) {}
    }
}
