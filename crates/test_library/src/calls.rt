//! Calls that the program doesn't make, with ample memory, and words of faults. What bytes are read
//! as is in proofs/WorkedRows.antt.
use gopher_scope::{Key, SettingsFault};
use gopher_text::{read_text, write_text};
use gopher_tree::TreeFault;
use std::slice;

// Texts, their lines, and whether a line with a period ended them.
const TEXTS: &[(&[u8], &[&[u8]], bool)] = &[
    (b"..\r\nhi\r\n.\r\nrest", &[b".", b"hi"], true),
    (b".x\na\r\r\n..", &[b".x", b"a\r", b"."], false),
];

#[test]
fn texts_are_written_and_read(rt: HostRuntime) {
    let alloc = rt.alloc();
    let mut out = Vec::new(alloc);
    let line = Vec::from_slice(alloc, b".").expect(&rt, "a text");
    write_text(slice::from_ref(&line), &mut out).expect(&rt, "a text");
    assert!(rt; out.as_slice() == b"..\r\n.\r\n".as_slice());
    for (bytes, lines, ended) in TEXTS {
        let text = read_text(alloc, bytes).expect(&rt, "a text");
        assert!(rt; text.ended == *ended && text.lines.len() == lines.len());
        for (index, line) in lines.iter().enumerate() {
            assert!(rt; index < text.lines.len() && text.lines.get(index) == *line);
        }
    }
}

#[test]
fn faults_tell_where(rt: HostRuntime) {
    let fault = TreeFault::BadMenuLine { file: 3, line: 7 };
    let told = format!(in rt.alloc(); "{fault}").expect(&rt, "words");
    assert!(rt; told.as_str().starts_with("file 3: line 7 "));
    let fault = SettingsFault::OutOfRange(Key::Port);
    let told = format!(in rt.alloc(); "{fault}").expect(&rt, "words");
    assert!(rt; told.as_str().starts_with("port: "));
}
