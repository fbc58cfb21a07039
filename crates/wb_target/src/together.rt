//! Clients on threads of their own.

ghost use Rattle.std.specs.Prelude.{◌≡◌, ◌<◌, ℕ, IfOk, vec_len, slice_index_or};

use crate::client::Client;
use crate::target::Target;
use std::alloc::AllocError;
use std::sync::Wait;
use std::thread;
use std::thread::Threads;
use wb_devices::Devices;
use wb_disk::Disk;
use wb_policy::Policy;
use wb_types::Refusal;

/// What a client does on a thread of its own.
pub trait Errand {
    /// What it tells at its end.
    type Told: Send + Drop;

    /// What it may tell.
    ghost tells: { Self → Self.Told → Type 0 };

    /// Does it, by this client.
    fn run<R: Wait, D: Disk + Drop, P: Policy>(
        self,
        rt: &R,
        client: &mut Client<'_, D, P>,
    ) -> Self::Told
        ensures { tells self result };
}

/// An errand, and the devices that its client is to have.
#[derive(Drop)]
pub struct Sent<D, E> {
    pub devices: Devices<D>,
    pub errand: E,
}

/// The devices of a client that is back, and what its errand told; or why there was no client.
#[derive(Drop)]
pub struct Returned<D, X> {
    pub devices: Devices<D>,
    pub told: Result<X, Refusal>,
}

impl<P: Policy + Send> Target<P> {
    /// Does each errand by a client of its own, on a thread of its own where one can be made, and gives what they told, in order.
    /// Threads run at once, but no errand may wait for another: where no thread can be made, one is done after the other.
    ///
    /// `Err` where there is no memory for the answers; the devices are dropped then, and some errands may not have been done.
    pub fn together<R: Threads + Wait + Sync, D: Disk + Drop + Send, E: Errand + Send + Drop>(
        &self,
        rt: &R,
        errands: Vec<Sent<D, E>>,
    ) -> Result<Vec<Returned<D, E::Told>>, AllocError>
        ensures many { IfOk result (λ returned. vec_len returned ≡ vec_len errands) }
        ensures each { IfOk result (λ returned. (i : ℕ) (r : _) (s : _) → i < vec_len errands → IfOk (slice_index_or returned.items i r).told (E.tells (slice_index_or errands.items i s).errand)) }
    {
        thread::map_vec(rt, errands, &|sent| do_errand(rt, self, sent))
    }
}

/// Does an errand by a client, on the thread that calls.
fn do_errand<R: Wait, P: Policy, D: Disk + Drop, E: Errand + Drop>(
    rt: &R,
    target: &Target<P>,
    sent: Sent<D, E>,
) -> Returned<D, E::Told>
    ensures { IfOk result.told (E.tells sent.errand) }
{
    let Sent { devices, errand } = sent;
    match target.client(rt, devices) {
        Ok(mut client) => {
            let told = Ok(errand.run(rt, &mut client));
            let devices = target.retire(rt, client);
            Returned { devices, told }
        }
        Err((devices, refusal)) => Returned {
            devices,
            told: Err(refusal),
        },
    }
}
