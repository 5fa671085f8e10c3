// The scheduler: which thread is issued next.
ghost use Rattle.std.specs.Prelude.{◌≡◌};
ghost use Rattle.machine.specs.Machine.{thread_numbers};
ghost use Rattle.machine.specs.Scheduler.{runs, choose};
ghost use Rattle.machine.specs.Search.{mask_of};

use crate::record::Machine;
use thread_entry::is_running;

// The thread to issue, and its distance from "last", 1 to 8.
#[derive(Clone, Copy, Debug, PartialEq, Eq)]
pub struct Chosen {
    pub thread: usize,
    pub distance: usize,
}

// The choice, if a thread is running, with the record in which the chosen thread is "last".
#[derive(Clone, Copy, Debug, PartialEq, Eq)]
pub struct Turn {
    pub choice: Option<Chosen>,
    pub machine: Machine,
}

impl Machine {
    // A mask of the running threads.
    fn running_mask(self) -> u32
        ensures { result ≡ mask_of (runs self) thread_numbers }
    {
        let mut mask: u32 = 0;
        for (thread, entry) in self.threads.iter().enumerate() {
            if is_running(entry.status) {
                mask += 1 << thread;
            }
        }
        mask
    }

    // The first running thread after "last", going round upwards.
    pub fn choose(mut self) -> Turn
        ensures { result ≡ choose self }
    {
        let mask = self.running_mask();
        if mask == 0 {
            return Turn {
                choice: None,
                machine: self,
            };
        }
        // Where several threads are running it is mostly the next one, which a processor foretells; the search takes longer.
        let last = (self.last % 8) as usize;
        let following = (last + 1) % 8;
        if (mask >> following) % 2 == 1 {
            self.last = following as u8;
            return Turn {
                choice: Some(Chosen {
                    thread: following,
                    distance: 1,
                }),
                machine: self,
            };
        }
        // The mask stands here twice, so that its bits go round: bit k is that of the thread at distance k + 1.
        let ahead = (mask * 257) >> (last + 1);
        let distance = ahead.trailing_zeros() as usize + 1;
        let thread = (last + distance) % 8;
        self.last = thread as u8;
        Turn {
            choice: Some(Chosen { thread, distance }),
            machine: self,
        }
    }
}
