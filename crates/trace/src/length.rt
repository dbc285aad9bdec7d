// The length of a record, which its map alone decides. Nothing else knows the lengths.
ghost use Rattle.std.specs.Prelude.{◌≡◌};
ghost use Rattle.trace.specs.Maps.{length_of};

// The length of a record with this map, or none where the map is unlawful.
pub fn record_length(map: u8) -> Option<usize>
    ensures { result ≡ length_of map }
{
    // A table by a rule of the project: a row for each choice of take and finish, in it an entry for each choice of the acts with a line.
    const LENGTHS: [[u8; 16]; 4] = [
        [1, 2, 2, 3, 2, 3, 3, 4, 2, 3, 3, 4, 3, 4, 4, 5], // neither; the first entry is of no lawful map
        [1, 2, 2, 3, 2, 3, 3, 4, 2, 3, 3, 4, 3, 4, 4, 5], // take
        [1, 2, 2, 3, 2, 3, 3, 4, 2, 3, 3, 4, 3, 4, 4, 5], // finish
        [1, 2, 2, 3, 2, 3, 3, 4, 2, 3, 3, 4, 3, 4, 4, 5], // both
    ];
    if map == 0 || map >= 64 {
        return None;
    }
    Some(usize::from(LENGTHS[usize::from(map / 16)][usize::from(map % 16)]))
}
