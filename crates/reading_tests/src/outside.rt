use ltl_io::{
    MemorySink, MemorySource, ReadRefused, StdSink, StdSource, SureSource, WriteFault, read_whole,
    write_whole,
};
use std::io;
use std::io::{ErrorKind, Read, Write};
use std::test::Fail;

// Its bytes stand in `flushed` only after a flush, and each call after `sound` calls fails.
#[derive(Drop)]
struct Device<'a> {
    waiting: Vec<u8>,
    flushed: &'a mut Vec<u8>,
    sound: u32,
}

impl<'a> Device<'a> {
    fn fails(&mut self) -> bool {
        let fails = self.sound == 0;
        self.sound = self.sound.saturating_sub(1);
        fails
    }
}

impl<'a> Read for Device<'a> {
    fn read(&mut self, buf: &mut [u8]) -> io::Result<usize> {
        if self.fails() {
            return Err(io::Error::from(ErrorKind::Other));
        }
        let mut rest = self.waiting.as_slice();
        rest.read(buf)
    }
}

impl<'a> Write for Device<'a> {
    fn write(&mut self, buf: &[u8]) -> io::Result<usize> {
        if self.fails() {
            return Err(io::Error::from(ErrorKind::Other));
        }
        let n = buf.len().min(2);
        self.waiting.extend_from_slice(&buf[..n])?;
        Ok(n)
    }

    fn flush(&mut self) -> io::Result<()> {
        if self.fails() {
            return Err(io::Error::from(ErrorKind::Other));
        }
        self.flushed.extend_from_slice(&self.waiting)?;
        self.waiting.clear();
        Ok(())
    }
}

type Answer = Result<&'static [u8], ReadRefused>;

#[test]
fn reads_to_the_end_or_past_the_stop(rt: HostRuntime) -> Result<(), Fail> {
    let fault: Answer = Err(ReadRefused::Fault);
    let rows: [(&str, usize, &[u64], usize, Answer); 7] = [
        ("abcdef", 1, &[], 10, Ok(b"abcdef")),
        ("abcdef", 64, &[], 6, Ok(b"abcdef")),
        ("abcdef", 2, &[], 3, Ok(b"abcd")),
        ("abcdef", 2, &[], 4, Ok(b"abcdef")),
        ("", 1, &[2], 0, Ok(b"")),
        ("ab", 1, &[2], 10, fault),
        ("ab", 1, &[3], 10, fault),
    ];
    for (text, step, failing, stop_after, want) in rows {
        let content = text.as_bytes().to_vec(rt.alloc())?;
        let mut source = MemorySource::new(content, step, failing.to_vec(rt.alloc())?);
        let got = read_whole(rt.alloc(), &mut source, stop_after);
        match (got, want) {
            (Ok(bytes), Ok(wanted)) => assert_eq!(rt; bytes.as_slice(), wanted, "of {text}"),
            (Err(fault), Err(wanted)) => assert_eq!(rt; fault, wanted, "of {text}"),
            _ => panic!(rt; "of {text}"),
        }
    }
    // No read is made behind the one that met the end: the call that fails is still to come.
    let mut ended = MemorySource::new(b"ab".to_vec(rt.alloc())?, 64, [3].to_vec(rt.alloc())?);
    assert_eq!(rt;
        read_whole(rt.alloc(), &mut ended, 9)?.as_slice(),
        b"ab".as_slice()
    );
    assert_eq!(rt;
        read_whole(rt.alloc(), &mut ended, 9),
        Err(ReadRefused::Fault)
    );
    let mut halves = MemorySource::new(b"abcdef".to_vec(rt.alloc())?, 2, Vec::new(rt.alloc()));
    for wanted in ["abcd", "ef", ""] {
        let bytes = read_whole(rt.alloc(), &mut halves, 3)?;
        assert_eq!(rt; bytes.as_slice(), wanted.as_bytes());
    }
    let mut sure = SureSource::new(b"abc".to_vec(rt.alloc())?);
    assert_eq!(rt;
        read_whole(rt.alloc(), &mut sure, 9)?.as_slice(),
        b"abc".as_slice()
    );
    Ok(())
}

#[test]
fn writes_all_or_up_to_the_fault(rt: HostRuntime) -> Result<(), Fail> {
    let rows: [(usize, usize, &[u64], &str, Result<(), WriteFault>, &str); 5] = [
        (64, 3, &[], "abcdefg", Ok(()), "abcdefg"),
        (7, 64, &[2], "abcdefg", Ok(()), "abcdefg"),
        (64, 3, &[2], "abcdefg", Err(WriteFault), "abc"),
        (5, 3, &[], "abcdefg", Err(WriteFault), "abcde"),
        (0, 1, &[1], "", Ok(()), ""),
    ];
    for (room, step, failing, text, want, content) in rows {
        let mut sink = MemorySink::new(rt.alloc(), room, step, failing.to_vec(rt.alloc())?)?;
        assert_eq!(rt;
            write_whole(&mut sink, text.as_bytes()),
            want,
            "{text} into {room}"
        );
        assert_eq!(rt; sink.content(), content.as_bytes(), "{text} into {room}");
    }
    Ok(())
}

#[test]
fn reads_what_a_reader_gives(rt: HostRuntime) -> Result<(), Fail> {
    let text: &[u8] = b"p & !q";
    let mut source = StdSource::new(text);
    assert_eq!(rt; read_whole(rt.alloc(), &mut source, 64)?.as_slice(), text);
    let mut flushed = Vec::new(rt.alloc());
    let mut broken = StdSource::new(Device {
        waiting: b"p".to_vec(rt.alloc())?,
        flushed: &mut flushed,
        sound: 2,
    });
    assert_eq!(rt;
        read_whole(rt.alloc(), &mut broken, 64),
        Err(ReadRefused::Fault)
    );
    Ok(())
}

#[test]
fn writes_and_flushes_each_piece(rt: HostRuntime) -> Result<(), Fail> {
    let rows: [(u32, Result<(), WriteFault>, &str); 4] = [
        (6, Ok(()), "UNSAT"),
        (4, Err(WriteFault), "UNSA"),
        (3, Err(WriteFault), "UN"),
        (0, Err(WriteFault), ""),
    ];
    for (sound, want, content) in rows {
        let mut flushed = Vec::new(rt.alloc());
        {
            let mut sink = StdSink::new(Device {
                waiting: Vec::new(rt.alloc()),
                flushed: &mut flushed,
                sound,
            });
            assert_eq!(rt;
                write_whole(&mut sink, b"UNSAT"),
                want,
                "{sound} sound calls"
            );
        }
        assert_eq!(rt;
            flushed.as_slice(),
            content.as_bytes(),
            "{sound} sound calls"
        );
    }
    Ok(())
}
