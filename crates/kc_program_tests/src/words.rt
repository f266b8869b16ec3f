//! Words of a command line that no case can have: words that are not UTF-8.
use kc_program::answer_unread;
use std::io::{self, ErrorKind};

#[test]
fn words_that_are_not_utf_8_are_a_mistake_of_usage(rt: HostRuntime) {
    // What reading the words gives for one that is not UTF-8.
    let mut errors = Vec::new(rt.alloc());
    let status = answer_unread(&io::Error::from(ErrorKind::InvalidData), &mut errors);
    assert_eq!(rt; status.code(), 2);
    assert!(rt; !errors.is_empty());
    let mut errors = Vec::new(rt.alloc());
    let status = answer_unread(&io::Error::from(ErrorKind::OutOfMemory), &mut errors);
    assert_eq!(rt; status.code(), 1);
    assert_eq!(rt; errors.as_slice(), b"kconf: memory\n".as_slice());
}
