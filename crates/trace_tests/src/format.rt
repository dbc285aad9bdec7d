// The format, written down once more: what a map says of its record.
use std::array;
use trace::Acts;

// The bits of a map, in order. The first four have a line.
pub(crate) const BITS: [u8; 6] = [0x01, 0x02, 0x04, 0x08, 0x10, 0x20];

// Lines of every sort: the least, one that is a map, one that is none, the greatest; and one too many.
pub(crate) const LINES: [u8; 5] = [0x00, 0x3f, 0x40, 0xff, 0x11];

// A byte that is no lawful map.
pub(crate) const FILL: u8 = 0xaa;

// Bits 6 and 7 are clear, and some bit is set.
pub(crate) fn lawful(map: u8) -> bool {
    map != 0 && map & 0xc0 == 0
}

// How many of these bits are set. Bit by bit, since the crate counts them with count_ones.
pub(crate) fn set_bits(map: u8, bits: &[u8]) -> usize {
    bits.iter().filter(|bit| map & **bit != 0).count()
}

// How many lines follow the map.
pub(crate) fn fields(map: u8) -> usize {
    set_bits(map, &BITS[..4])
}

pub(crate) fn length(map: u8) -> usize {
    fields(map).saturating_add(1)
}

// The bytes of the record with these lines, and past the record the fill.
pub(crate) fn written(map: u8) -> [u8; 6] {
    let mut lines = LINES.into_iter().take(fields(map));
    array::from_fn(|place| {
        if place == 0 {
            map
        } else {
            lines.next().unwrap_or(FILL)
        }
    })
}

// Each act that has a line has the next one.
pub(crate) fn acts_of(map: u8) -> Acts {
    let mut lines = LINES.into_iter();
    let mut line = |bit: u8| if map & bit != 0 { lines.next() } else { None };
    Acts {
        rise: line(0x01),
        fall: line(0x02),
        open: line(0x04),
        shut: line(0x08),
        take: map & 0x10 != 0,
        finish: map & 0x20 != 0,
    }
}
