// straymap: a scene text on standard input, its answer on standard output (document 01).
#![tactic(auto)]

// One byte more than a text may have: with it a text is known to be too long, and no more is read. Whoever goes on
// writing then writes to a closed pipe.
const TEXT_ROOM: usize = scene_text::MAX_TEXT + 1;

fn main() {
    let mut text = [0u8; TEXT_ROOM];
    let n = io::read_full(0, &mut text);
    let mut answer = [0u8; map_text::MAX_ANSWER];
    let m = map_text::put_stray_map(&mut answer, 0, &text[..n]);
    if m <= map_text::MAX_ANSWER {
        io::write_all(1, &answer[..m]);
    }
}
