//! The requests that were sent, and are neither done nor given up.

ghost use Rattle.std.specs.Prelude.{◌≡◌, ◌<◌, ◌≤◌, [], ◌∷◌, ◌++◌, ℤ, map, position, vec_capacity, vec_len};
ghost use Rattle.otap_resend.specs.States.{has_id, is_unwritten, without_id};

use otlp_model::Request;

/// A request that was sent, and is neither done nor given up.
#[derive(Debug, Drop)]
pub(crate) struct Unanswered {
    /// Its number among the requests that were sent, from 0.
    pub(crate) number: u64,
    pub(crate) request: Request,
    /// The id of its batch, or `None` where it wasn't written since the last reset.
    pub(crate) id: Option<u64>,
}

impl Unanswered {
    fn has_id(&self, id: i64) -> bool
        ensures { result ≡ has_id id self.now }
    {
        match self.id {
            None => false,
            Some(own) => i128::from(own) == i128::from(id),
        }
    }

    fn is_unwritten(&self) -> bool
        ensures { result ≡ is_unwritten self.now }
    {
        self.id.is_none()
    }
}

/// The index of the first request that was written with the id.
pub(crate) fn place_with_id(requests: &[Unanswered], id: i64) -> Option<usize>
    ensures { result ≡ position (has_id id) requests.now }
{
    requests.iter().position(|request| request.has_id(id))
}

/// The index of the first request that wasn't written since the last reset.
pub(crate) fn place_unwritten(requests: &[Unanswered]) -> Option<usize>
    ensures { result ≡ position is_unwritten requests.now }
{
    requests.iter().position(Unanswered::is_unwritten)
}

/// Takes the ids of all requests away.
pub(crate) fn remove_ids(requests: &mut [Unanswered])
    ensures { requests.new ≡ map without_id requests.old }
{
    'requests: for request in requests.iter_mut() {
        request.id = None;
    }
}

/// Adds a request for which there is room.
pub(crate) fn keep(requests: &mut Vec<Unanswered>, kept: Unanswered)
    requires { vec_len requests.old < vec_capacity requests.old }
    ensures items { requests.new.items ≡ requests.old.items ++ kept ∷ [] }
    ensures capacity { vec_capacity requests.old ≤ vec_capacity requests.new }
{
    requests.push(kept).unwrap();
}
