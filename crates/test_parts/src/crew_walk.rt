//! A plan that reads no directories, by a crew, and the places of a crew.
use jwalk_board::board::Plan;
use std::alloc::Global;
use std::sync::{Arc, Wait};
use std::thread::Threads;
use std::time::{Clock, Duration};
use test_fixtures::family::Family;
use tree_crew::crew::{Crew, NotStarted, Place};
use tree_crew::origin::Origin;
use tree_crew::places::Places;
use tree_crew::session::Session;
use tree_crew::whole::read_all;

// The readings of a family in preorder.
const PREORDER: [u8; 4] = [0, 1, 3, 2];

// The readings of a family from two roots, of which the second has no children.
const OF_TWO_ROOTS: [u8; 5] = [0, 1, 3, 2, 3];

fn whole_family<R: Wait + Threads + Clock + Drop + Send + Sync + 'static>(
    alloc: Global,
    place: Place<R>,
) -> Option<Vec<u8>> {
    let plan = Arc::new(alloc, Family).ok()?;
    read_all(place, plan, vec![in alloc; 0_u8].ok()?).ok()
}

/// Takes `count` readings one at a time. At most `most` may be ahead at any time.
fn taken<R: Wait + Clock + Drop, T: Drop, U: Drop, J: Plan<Global, Spec = T, Reading = U> + Drop>(
    alloc: Global,
    session: &mut Session<R, T, U, J>,
    count: usize,
    most: usize,
) -> Option<Vec<U>> {
    let mut found = Vec::new(alloc);
    for _ in 0..count {
        let item = session.next().ok()??;
        found.push(item.value.into_outcome().ok()?).ok()?;
        if session.ahead() > most {
            return None;
        }
    }
    match session.next() {
        Ok(None) => Some(found),
        Ok(Some(_)) | Err(_) => None,
    }
}

/// Takes the readings of a family from two roots.
fn each<R: Wait + Threads + Clock + Drop + Send + Sync + 'static>(
    alloc: Global,
    place: Place<R>,
    most: usize,
) -> Option<Vec<u8>> {
    let plan = Arc::new(alloc, Family).ok()?;
    let origin = Origin::new(plan, vec![in alloc; 0_u8, 3].ok()?);
    let mut session = Session::start(place, &origin, vec![in alloc; 0_u8, 3].ok()?).ok()?;
    taken(alloc, &mut session, OF_TWO_ROOTS.len(), most)
}

/// The way in which the readings are taken.
enum Pace {
    AllAtOnce,
    OneByOne,
}

/// Walks 20 times. No wait may have ended late.
fn takes<R: Wait + Threads + Clock + Drop + Send + Sync + 'static>(
    alloc: Global,
    crew: &Arc<Crew<R>>,
    pace: &Pace,
    most: usize,
) -> bool {
    for _ in 0..20 {
        let Ok(place) = Place::take(crew, None) else {
            return false;
        };
        let is_right = match pace {
            Pace::AllAtOnce => {
                let found = whole_family(alloc, place);
                found.as_deref() == Some(PREORDER.as_slice()) && crew.in_use() == 0
            }
            Pace::OneByOne => {
                let found = each(alloc, place, most);
                found.as_deref() == Some(OF_TWO_ROOTS.as_slice())
            }
        };
        if !is_right {
            return false;
        }
    }
    crew.late_wakes() == 0
}

/// The crew has one place. It reads one ahead, or as many as it has workers.
fn crew_takes<R: Wait + Threads + Clock + Clone + Drop + Send + Sync + 'static>(
    alloc: Global,
    rt: &R,
    pace: &Pace,
    workers: usize,
) -> Option<bool> {
    let crew = Crew::new(rt.clone().ok()?, 1, workers).with_read_ahead(1);
    let crew = Arc::new(alloc, crew).ok()?;
    Some(takes(alloc, &crew, pace, workers.saturating_add(1)))
}

#[test]
fn readings_of_families_by_a_crew(rt: HostRuntime) {
    const PACES: &[(&str, Pace)] = &[
        ("all of a family", Pace::AllAtOnce),
        ("those of two families one at a time", Pace::OneByOne),
    ];
    for (shown, pace) in PACES {
        for workers in [1, 2, 4] {
            let is_right = crew_takes(rt.alloc(), &rt, pace, workers);
            assert_eq!(rt; is_right, Some(true), "{shown}, {workers} workers");
        }
    }
}

/// The place must be free, and is taken once until it is given back.
fn is_one(mut places: Places) -> bool {
    if !places.take() {
        return false;
    }
    let again = places.take();
    places.give_back();
    !again && places.in_use() == 0 && places.take() && places.places() == 1
}

/// Returns whether a crew that is made with this number of places has one, which is taken once until it is given back.
fn has_one_place<R: Wait + Clock + Clone + Drop>(
    alloc: Global,
    rt: &R,
    places: usize,
) -> Option<bool> {
    let crew = Arc::new(alloc, Crew::new(rt.clone().ok()?, places, 1)).ok()?;
    for _ in 0..2 {
        let place = Place::take(&crew, None).ok()?;
        let other = Place::take(&crew, Some(Duration::ZERO));
        if !matches!(other, Err(NotStarted::Busy)) || crew.in_use() != 1 {
            return Some(false);
        }
        drop(place);
    }
    Some(crew.in_use() == 0)
}

#[test]
fn one_place_is_taken_once_and_no_places_count_as_one(rt: HostRuntime) {
    for places in [0, 1] {
        assert!(rt; is_one(Places::new(places)), "{places}");
        assert!(rt;
            has_one_place(rt.alloc(), &rt, places) == Some(true),
            "a crew of {places}"
        );
    }
}
