//! The program over a slow reader, and over readers and writers that fail.
use replay_program::serve;
use std::alloc::{AllocGlobal, Global};
use std::io::{self, Error, ErrorKind, Read, Write};
use std::process::Abort;

const INPUT: &[u8] = b"a\n---\nparse 0 Ident\n";

// Reads a byte at a time, each after an interrupted call, and then fails or ends.
#[derive(Drop)]
struct Slow<'a> {
    left: &'a [u8],
    is_ready: bool,
    fails: bool,
}

impl Read for Slow<'_> {
    fn read(&mut self, buf: &mut [u8]) -> io::Result<usize> {
        self.is_ready = !self.is_ready;
        if self.is_ready {
            return Err(Error::from(ErrorKind::Interrupted));
        }
        match (self.left.split_first(), buf.first_mut()) {
            (Some((byte, rest)), Some(room)) => {
                *room = *byte;
                self.left = rest;
                Ok(1)
            }
            _ if self.fails => Err(Error::from(ErrorKind::Other)),
            _ => Ok(0),
        }
    }
}

// Writes so many bytes, one at a time, and then fails, also to flush.
#[derive(Drop)]
struct Full {
    room: usize,
}

impl Write for Full {
    fn write(&mut self, buf: &[u8]) -> io::Result<usize> {
        if self.room == 0 || buf.is_empty() {
            return Err(Error::from(ErrorKind::Other));
        }
        self.room -= 1;
        Ok(1)
    }

    fn flush(&mut self) -> io::Result<()> {
        if self.room == 0 {
            return Err(Error::from(ErrorKind::Other));
        }
        Ok(())
    }
}

// Returns `true` if the program ends with this status and output, when its reader has so many bytes
// and then fails or ends.
fn is_served(alloc: Global, count: usize, fails: bool, status: u8, output: &str) -> bool {
    let mut input = Slow {
        left: INPUT.get(..count).unwrap_or(INPUT),
        is_ready: false,
        fails,
    };
    let mut written = Vec::new(alloc);
    let got = serve(alloc, &mut input, &mut written);
    got == status && written.as_slice() == output.as_bytes()
}

fn all_served(
    rt: &(impl Abort + AllocGlobal),
    counts: &[usize],
    fails: bool,
    status: u8,
    output: &str,
) {
    for count in counts {
        assert!(rt;
            is_served(rt.alloc(), *count, fails, status, output),
            "after {count} bytes"
        );
    }
}

#[test]
fn fails_with_its_reader(rt: HostRuntime) {
    all_served(
        &rt,
        &[
            0, 1, 2, 3, 4, 5, 6, 7, 8, 9, 10, 11, 12, 13, 14, 15, 16, 17, 18, 19, 20,
        ],
        true,
        2,
        "",
    );
}

#[test]
fn reads_byte_by_byte(rt: HostRuntime) {
    all_served(&rt, &[20], false, 0, "read a 0..1 @1\naccepted\n");
}

// Returns the status of the program if its writer has room for so many bytes.
fn status_with_room(alloc: Global, room: usize) -> u8 {
    let mut input = INPUT;
    let mut output = Full { room };
    serve(alloc, &mut input, &mut output)
}

fn all_rooms(rt: &(impl Abort + AllocGlobal), rooms: &[usize], status: u8) {
    for room in rooms {
        assert_eq!(rt;
            status_with_room(rt.alloc(), *room),
            status,
            "with room for {room}"
        );
    }
}

#[test]
fn fails_with_its_writer(rt: HostRuntime) {
    all_rooms(
        &rt,
        &[
            0, 1, 2, 3, 4, 5, 6, 7, 8, 9, 10, 11, 12, 13, 14, 15, 16, 17, 18, 19, 20, 21, 22, 23,
            24,
        ],
        2,
    );
    all_rooms(&rt, &[100], 0);
}
