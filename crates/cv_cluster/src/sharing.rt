//! The firings of a round are shared out.

ghost use Rattle.std.specs.Prelude.{◌≡◌, ◌+◌, ◌<◌, ◌≤◌, length, slice_get, IfSome};
ghost use Rattle.cv_mesh.specs.Moving.{Each, Stays, quotas_in};
ghost use Rattle.cv_cluster.specs.Rounds.{Cleared, Raised};

use cv_actor::Outlook;
use cv_station::Station;

/// Whether a live actor of the station would fire or read an inport.
fn can_act(station: &Station) -> bool {
    let now = station.node.now();
    for place in 0..u32::MAX {
        let Some(actor) = station.node.live_at(place) else {
            return false;
        };
        let Some(live) = station.node.live(actor) else {
            return false;
        };
        match live.outlook(now) {
            Outlook::Fires(_) | Outlook::Reads(_, _) => return true,
            Outlook::Waits(_) => {}
        }
    }
    false
}

/// The first station between these places that can act.
fn first_between(stations: &[Station], from: usize, to: usize) -> Option<usize>
    requires { to ≤ length stations.now }
    ensures { IfSome result (λ place. place < length stations.now) }
{
    for place in from..to {
        if can_act(&stations[place]) {
            return Some(place);
        }
    }
    None
}

/// Where a round begins to share firings out: at the first station that can act, counted from one that is another in each round.
fn first_place(stations: &[Station], round: u32) -> usize
    ensures { result ≤ length stations.now }
{
    let count = stations.len();
    if count == 0 {
        return 0;
    }
    let turn = round as usize % count;
    if let Some(place) = first_between(stations, turn, count) {
        return place;
    }
    match first_between(stations, 0, turn) {
        Some(place) => place,
        None => turn,
    }
}

/// The station gets no firing.
fn clear(station: &mut Station)
    ensures { Cleared station.old station.new }
{
    station.quota = 0;
}

/// The stations get no firing.
fn clear_all(stations: &mut [Station])
    ensures { Each Cleared stations.old stations.new }
{
    for place in 0..stations.len() {
        clear(&mut stations[place]);
    }
}

/// The station gets so many firings more.
fn raise(station: &mut Station, quota: u32)
    ensures { Raised quota station.old station.new }
{
    station.quota = station.quota.saturating_add(quota);
}

/// How many of the firings left the next one of so many stations gets: its part, at least one where there is any.
fn part(left: u32, waiting: u32) -> u32
    ensures { result ≤ left }
{
    (left / waiting.max(1)).max(1).min(left)
}

/// The stations between these places get firings, and so many stations wait for one; tells how many firings are left.
fn give(stations: &mut [Station], from: usize, to: usize, most: u32, count: u32) -> u32
    requires { to ≤ length stations.old }
    ensures stays { Each Stays stations.old stations.new }
    ensures sum { quotas_in stations.new + result ≤ quotas_in stations.old + most }
{
    let mut left = most;
    let mut waiting = count;
    for place in from..to {
        let quota = part(left, waiting);
        raise(&mut stations[place], quota);
        left -= quota;
        waiting = waiting.saturating_sub(1);
    }
    left
}

/// Shares so many firings out among all stations.
pub(crate) fn share(stations: &mut [Station], most: u32, round: u32)
    ensures stays { Each Stays stations.old stations.new }
    ensures sum { quotas_in stations.new ≤ most }
{
    clear_all(stations);
    let count = stations.len();
    let start = first_place(stations, round);
    let after = count - start;
    let left = give(stations, start, count, most, in_u32(count));
    give(stations, 0, start, left, in_u32(count - after));
}

/// The count in 32 bits.
fn in_u32(count: usize) -> u32 {
    count.min(u32::MAX as usize) as u32
}
