// A prompt is on the screen before its line is read, which no clause over the end of a run can say.
ghost use Rattle.std.specs.Prelude.{◌≡◌, false, None};
ghost use Rattle.apt_base.specs.Bytes.{untold_source};

use crate::running::{shelf, words};
use apt_base::{Failed, Sink, Source};
use resolve_cli::{Status, run_alone};
use std::cell::Cell;
use std::test::Fail;

// A sink that notes whether what was written last is a prompt.
#[derive(Drop)]
struct Screen<'a> {
    is_asking: &'a Cell<bool>,
}

impl Sink for Screen<'_> {
    ghost state = { λ s. record { room = None; faults = 0; written = None } };

    ghost is_state = { λ s. tt };

    fn write(&mut self, piece: &[u8]) -> Result<usize, Failed> {
        self.is_asking.set(piece.ends_with(b"> "));
        Ok(piece.len())
    }
}

// A user who looks at the screen: it says a line where it is asked, and fails where it is not.
#[derive(Drop)]
struct User<'a> {
    is_asked: &'a Cell<bool>,
    faults: u64,
}

impl Source for User<'_> {
    ghost state = { λ s. record { sure = false; faults = s.faults; left = None } };

    ghost is_state = { λ s. untold_source s.faults };

    fn read(&mut self, buf: &mut [u8]) -> Result<usize, Failed> {
        if self.is_asked.get() && buf.len() >= 5 {
            buf[..5].copy_from_slice(b"quit\n");
            Ok(5)
        } else {
            self.faults = self.faults.saturating_add(1);
            Err(Failed)
        }
    }
}

#[test]
fn the_prompt_is_there_before_the_line_is_read(rt: HostRuntime) -> Result<(), Fail> {
    let alloc = rt.alloc();
    let words = words(alloc)?;
    let mut shelf = shelf(alloc)?;
    let is_asking = Cell::new(false);
    let mut out = Screen {
        is_asking: &is_asking,
    };
    let mut input = User {
        is_asked: &is_asking,
        faults: 0,
    };
    let report = run_alone(alloc, words.as_slice(), &mut shelf, &mut input, &mut out);
    assert_eq!(rt; report.status, Status::Ended);
    Ok(())
}
