// Counts of turns, read from a record and put into one.
ghost use Rattle.std.specs.Prelude.{◌≡◌, length};
ghost use Rattle.machine.specs.Machine.{turns_of, with_turns};

use machine::Machine;

// The count of turns of each thread.
pub fn turns(machine: Machine) -> [u32; 8]
    ensures { (result ≡ turns_of machine) × (length result ≡ 8) }
{
    machine.threads.map(|entry| entry.turns)
}

// The record with other counts; every status stays.
pub fn with_turns(mut machine: Machine, turns: [u32; 8]) -> Machine
    ensures { result ≡ with_turns machine turns }
{
    // The counts go by number: nothing is known of what a zip over iter_mut writes (the library's page says so).
    for (t, entry) in machine.threads.iter_mut().enumerate() {
        entry.turns = turns[t];
    }
    machine
}
