// Files of data/ read whole, and parts of texts.
use std::fs::File;
use std::os::fd::AsRawFd;

// The bytes from one place up to another; none if they are not there.
pub fn between(t: &[u8], from: usize, to: usize) -> &[u8] {
    t.get(from..to).unwrap_or(&[])
}

// The first n bytes; none if there are fewer.
pub fn front(t: &[u8], n: usize) -> &[u8] {
    between(t, 0, n)
}

// The file of that name, as far as buf has room: how many bytes were read. A failure ends it as the end does.
pub fn read(rt: &HostRuntime, name: &[u8], buf: &mut [u8]) -> usize {
    let Ok(path) = std::str::from_utf8(name) else {
        let _ = eprintln!(rt; "a file's name is not text");
        return 0;
    };
    match File::open(rt, path) {
        Ok(file) => io::read_full(file.as_raw_fd(), buf),
        Err(error) => {
            let _ = eprintln!(rt; "{path}: {error}");
            0
        }
    }
}
