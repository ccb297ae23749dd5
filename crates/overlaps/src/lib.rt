// Cause 14: the first routine whose objects overlap an earlier one's.
#![tactic(auto)]

ghost use Rattle.std.specs.Prelude.{◌≡◌, min, max, ◌≤◌, ◌<◌, ltb};
ghost use Rattle.machine.specs.Machine.{low, high};
ghost use Rattle.overlaps.specs.Overlaps.{lowest, some, share_cell};
ghost use Rattle.overlaps.specs.SeatOverlaps.{SeatRight, SeatsRight, seats_overlap, seat_overlaps};
ghost use Rattle.seats.specs.SeatAt.{seat_at};

use arrays::lowest;
use machine::value_at;
use seats::Seat;

// Object k of the directory shares a cell with those from `start` to `end` - 1.
fn shares(start: u64, end: u64, directory: &[u32], k: usize) -> bool
    requires { k < 16 }
    ensures { result ≡ ltb (max start (low directory.now k)) (min end (high directory.now k)) }
{
    let other = value_at(directory, 2 * k);
    let other_end = other + value_at(directory, 2 * k + 1);
    start.max(other) < end.min(other_end)
}

// The lowest of `count` objects that shares a cell with those from `start` to `end` - 1, or `count`.
fn lowest_shared(start: u64, end: u64, directory: &[u32], count: usize) -> usize
    requires { count ≤ 16 }
    ensures { result ≡ lowest (λ k. ltb (max start (low directory.now k)) (min end (high directory.now k))) count }
{
    lowest(count, |k| shares(start, end, directory, k))
}

// Object o of the first directory shares a cell with one of the other's.
fn shares_any(directory: &[u32], o: usize, other: &[u32], count: usize) -> bool
    requires { (o < 16) × (count ≤ 16) }
    ensures { result ≡ some (λ k. share_cell directory.now o other.now k) count }
{
    let start = value_at(directory, 2 * o);
    let end = start + value_at(directory, 2 * o + 1);
    let lowest = lowest_shared(start, end, other, count);
    lowest < count
}

// The lowest object of the first directory that shares a cell with one of the other's, or `count`.
fn lowest_overlap(directory: &[u32], count: usize, other: &[u32], others: usize) -> usize
    requires { (count ≤ 16) × (others ≤ 16) }
    ensures { result ≡ lowest (λ o. some (λ k. share_cell directory.now o other.now k) others) count }
{
    lowest(count, |o| shares_any(directory, o, other, others))
}

// Objects of the two seats overlap.
fn seats_overlap(directories: &[u32], seat: Seat, other: Seat) -> bool
    requires { SeatRight directories.now seat × SeatRight directories.now other }
    ensures { result ≡ seats_overlap directories.now seat other }
{
    let own = seat.places.directory;
    let others = other.places.directory;
    let lowest = lowest_overlap(
        &directories[own.start..own.end],
        seat.sections.objects,
        &directories[others.start..others.end],
        other.sections.objects,
    );
    lowest < seat.sections.objects
}

// The lowest routine before r whose objects overlap those of r, or r.
fn lowest_earlier(directories: &[u32], seats: [Seat; 8], r: usize) -> usize
    requires { (r < 8) × SeatRight directories.now (seat_at seats r) × SeatsRight directories.now seats r }
    ensures { result ≡ lowest (λ e. seats_overlap directories.now (seat_at seats r) (seat_at seats e)) r }
{
    lowest(r, |e| seats_overlap(directories, seats[r], seats[e]))
}

// Objects of routine r overlap an earlier one's.
fn overlaps_earlier(directories: &[u32], seats: [Seat; 8], r: usize) -> bool
    requires { (r < 8) × SeatRight directories.now (seat_at seats r) × SeatsRight directories.now seats r }
    ensures { result ≡ seat_overlaps directories.now seats r }
{
    let lowest = lowest_earlier(directories, seats, r);
    lowest < r
}

// The first routine whose objects overlap an earlier one's, or `count`.
pub fn first_overlap(directories: &[u32], seats: [Seat; 8], count: usize) -> usize
    requires { (count ≤ 8) × SeatsRight directories.now seats count }
    ensures { result ≡ lowest (seat_overlaps directories.now seats) count }
{
    lowest(count, |r| overlaps_earlier(directories, seats, r))
}
