// Hardware that is a script and a log: each read brings the next byte of the script, and each write
// puts its pair into the log.
ghost use Rattle.std.specs.Prelude.{◌≡◌};
ghost use Rattle.exchange.specs.Keeping.{noted};
ghost use Rattle.ps2_kept.specs.Added.{added_thrown};
ghost use Rattle.theseus_ps2.specs.Ports.{io_port};
ghost use Rattle.theseus_ps2.specs.Comparison.{Starts};
ghost use Rattle.theseus_ps2.specs.Recording.{recording};

use crate::{Hardware, IoPort};
use ps2_bytes::DeviceToHostResponse;
use ps2_kept::{KeptBytes, none_kept};

/// Where the script or the log is at its end, it has fallen short, and of which port, or of no
/// port, something was asked: from then on nothing is read or written. It notes the bytes thrown
/// away.
#[derive(Drop)]
pub struct Recording<'a> {
    pub script: &'a [u8],
    pub log: &'a mut [u8],
    pub used: usize,
    pub pairs: usize,
    pub short: bool,
    pub asked: u8,
    pub thrown: KeptBytes,
}

impl<'a> Recording<'a> {
    /// Nothing is read and nothing written yet.
    pub fn new(script: &'a [u8], log: &'a mut [u8]) -> Self
        ensures { Starts script.now log.old result }
    {
        Recording {
            script,
            log,
            used: 0,
            pairs: 0,
            short: false,
            asked: 0,
            thrown: none_kept(),
        }
    }
}

impl Recording<'_> {
    // A byte of data that is no response is noted.
    fn note(&mut self, port: IoPort, byte: u8)
        ensures { self.new ≡ record self.old
            { thrown = noted added_thrown (io_port port) self.old.thrown byte } }
    {
        if let IoPort::Data = port {
            if let Err(_) = DeviceToHostResponse::try_from(byte) {
                self.thrown.add(byte);
            }
        }
    }
}

impl Hardware for Recording<'_> {
    ghost device = { recording };

    fn read(&mut self, port: IoPort) -> u8 {
        if self.short {
            0
        } else if self.used < self.script.len() {
            let byte = self.script[self.used];
            self.used += 1;
            self.note(port, byte);
            byte
        } else {
            self.short = true;
            self.asked = port as u8;
            0
        }
    }

    fn write(&mut self, port: IoPort, value: u8) {
        if self.short {} else if self.pairs < self.log.len() / 2 {
            let at = 2 * self.pairs;
            self.log[at] = port as u8;
            self.log[at + 1] = value;
            self.pairs += 1;
        } else {
            self.short = true;
            self.asked = 0;
        }
    }
}
