// A source and a sink that look at a watch.
ghost use Rattle.std.specs.Prelude.{◌≡◌};

use apt_base::{Failed, Sink, Source};
use std::io;
use std::rt::Clock;
use std::sync::atomic::{AtomicU64, Ordering};
use std::time::Instant;

/// When it was started, and in microseconds from then on: when something was first written or read, which is the greeting, and when
/// last.
#[derive(Drop)]
pub struct Watch {
    start: Instant,
    greeting: AtomicU64,
    last: AtomicU64,
}

impl Watch {
    /// A watch that starts now.
    pub fn start(clock: &impl Clock) -> io::Result<Watch> {
        Ok(Watch {
            start: Instant::now(clock)?,
            greeting: AtomicU64::new(0),
            last: AtomicU64::new(0),
        })
    }

    // The time since the start; 0 where the clock does not tell it.
    fn now(&self, clock: &impl Clock) -> u64 {
        match self.start.elapsed(clock) {
            Ok(time) => u64::try_from(time.as_micros()).unwrap_or(0),
            Err(_) => 0,
        }
    }

    // Notes that something was read or written.
    fn note(&self, clock: &impl Clock) {
        let now = self.now(clock);
        self.last.store(now, Ordering::SeqCst);
        if self.greeting.load(Ordering::SeqCst) == 0 {
            self.greeting.store(now, Ordering::SeqCst);
        }
    }

    // The time since something was last read or written.
    fn since_last(&self, clock: &impl Clock) -> u64 {
        self.now(clock)
            .saturating_sub(self.last.load(Ordering::SeqCst))
    }

    /// The time since the greeting was written.
    pub fn since_greeting(&self, clock: &impl Clock) -> u64 {
        self.now(clock)
            .saturating_sub(self.greeting.load(Ordering::SeqCst))
    }
}

/// A source that notes when it was read.
#[derive(Drop)]
pub struct TimedSource<'a, C: Clock, I: Source> {
    clock: &'a C,
    watch: &'a Watch,
    source: I,
}

impl<'a, C: Clock, I: Source> TimedSource<'a, C, I> {
    /// Notes in this watch when that source is read.
    pub fn new(clock: &'a C, watch: &'a Watch, source: I) -> TimedSource<'a, C, I> {
        TimedSource {
            clock,
            watch,
            source,
        }
    }
}

impl<C: Clock, I: Source> Source for TimedSource<'_, C, I> {
    ghost state = { λ s. I.state s.source };

    ghost is_state = { λ s. I.is_state s.source };

    fn read(&mut self, buf: &mut [u8]) -> Result<usize, Failed> {
        let count = self.source.read(buf);
        self.watch.note(self.clock);
        count
    }
}

/// A sink that tells how long each answer took: what is written that is no prompt.
#[derive(Drop)]
pub struct TimedSink<'a, R: Clock + Eprint, O: Sink> {
    rt: &'a R,
    watch: &'a Watch,
    sink: O,
}

impl<'a, R: Clock + Eprint, O: Sink> TimedSink<'a, R, O> {
    /// Tells by this watch how long that sink waited for what is written.
    pub fn new(rt: &'a R, watch: &'a Watch, sink: O) -> TimedSink<'a, R, O> {
        TimedSink { rt, watch, sink }
    }
}

impl<R: Clock + Eprint, O: Sink> Sink for TimedSink<'_, R, O> {
    ghost state = { λ s. O.state s.sink };

    ghost is_state = { λ s. O.is_state s.sink };

    fn write(&mut self, piece: &[u8]) -> Result<usize, Failed> {
        let micros = self.watch.since_last(self.rt);
        if !piece.starts_with(b"[") {
            let _ = eprintln!(self.rt; "{micros} us");
        }
        let count = self.sink.write(piece);
        self.watch.note(self.rt);
        count
    }
}
