// Writers that take a part at a time, break, or are interrupted.
use disp_outside::{Sink, StandardOutput, WriteNo};
use std::io;
use std::io::{ErrorKind, Write};
use std::process::Abort;

// Takes two bytes at a time, is interrupted in its second write, and breaks in its fifth.
#[derive(Drop)]
struct Halting {
    taken: Vec<u8>,
    writes: u32,
}

impl Write for &mut Halting {
    fn write(&mut self, buf: &[u8]) -> io::Result<usize> {
        self.writes = self.writes.saturating_add(1);
        match self.writes {
            2 => Err(io::Error::from(ErrorKind::Interrupted)),
            5 => Err(io::Error::from(ErrorKind::StorageFull)),
            _ => {
                let count = buf.len().min(2);
                self.taken.extend_from_slice(&buf[..count])?;
                Ok(count)
            }
        }
    }

    fn flush(&mut self) -> io::Result<()> {
        Ok(())
    }
}

const PIECES: &[(&str, Result<(), WriteNo>, u64)] = &[
    ("abc", Ok(()), 0),
    ("", Ok(()), 0),
    ("defg", Err(WriteNo::Failed), 1),
    ("hij", Ok(()), 1),
];

/// Asserts what each piece of the table comes to, and the faults so far.
fn check_pieces(rt: &impl Abort, writer: &mut Halting) {
    let mut out = StandardOutput::new(writer);
    for (piece, want, faults) in PIECES {
        let told = out.write(piece.as_bytes());
        assert_eq!(rt; (told, out.faults()), (*want, *faults));
    }
}

#[test]
fn a_piece_goes_out_in_parts(rt: HostRuntime) {
    let mut writer = Halting {
        taken: Vec::new(rt.alloc()),
        writes: 0,
    };
    check_pieces(&rt, &mut writer);
    assert_eq!(rt; writer.taken.as_slice(), b"abcdehij".as_slice());
}

#[test]
fn standard_output_takes_a_line(rt: HostRuntime) {
    let mut out = StandardOutput::new(rt.stdout());
    let told = out.write(b"a line\n");
    assert_eq!(rt; (told, out.faults()), (Ok(()), 0));
}
