ghost use Rattle.std.specs.Prelude.{◌≡◌, is_some, None};
ghost use Rattle.vc_ports.specs.Wires.{untold};

use crate::backlog::{Arrival, Backlog, Patience};
use crate::launcher::Launcher;
use crate::notes::WireNotes;
use crate::send_errors::is_transient;
use crate::telling::{tell_came, tell_refused, tell_sent};
use run_counts::RunCounts;
use std::alloc::Global;
use std::net::{Net, SocketAddr, ToSocketAddrs, UdpSocket};
use std::sync::Wait;
use std::thread::Threads;
use std::time::{Clock, Duration, Instant};
use std::{io, mem};
use vc_ports::{Came, Reached, Sent, Wire, WireCounts};

/// Where datagrams are sent: the first address that a name has, and a socket of its kind.
#[derive(Drop)]
struct Aim {
    socket: UdpSocket,
    to: SocketAddr,
}

/// How much of what came a wire keeps, and for how long it listens.
#[derive(Clone, Copy)]
pub struct Limits {
    /// For how many bytes it has room.
    pub room: usize,
    /// How many bytes it asks the system to keep.
    pub system: u32,
    /// How many seconds after it began to listen it ends, whatever comes. 0: it goes on.
    pub seconds: u32,
    /// After how many frames that its counts are told it ends. 0: it goes on.
    pub frames: u64,
}

/// A wire over UDP. It tells nothing of its lists, and has to be stopped. Counts, if there are any, are told
/// what goes and comes.
pub struct LiveWire<'w, H> {
    rt: H,
    alloc: Global,
    limits: Limits,
    launcher: Launcher,
    watch: Option<&'w RunCounts>,
    backlog: Option<Backlog>,
    aim: Option<Aim>,
    // For how long no datagram that is kept has to come until it ends. None: it never ends.
    silence: Option<Duration>,
    // When the last datagram came that was kept, or when it began to listen.
    kept: Option<Instant>,
    // When it began to listen.
    begun: Option<Instant>,
    address: Option<String>,
    error: Option<io::Error>,
    unsent: u64,
    faults: u64,
    counts: WireCounts,
}

impl<'w, H: Threads + Wait + Net + Clock + Copy> LiveWire<'w, H> {
    /// A wire that neither listens nor is aimed.
    pub fn new(
        rt: H,
        alloc: Global,
        limits: Limits,
        launcher: Launcher,
        watch: Option<&'w RunCounts>,
    ) -> LiveWire<'w, H>
        ensures listens { result.backlog ≡ None }
        ensures aimed { result.aim ≡ None }
        ensures faults { result.faults ≡ 0 }
        ensures counts { result.counts ≡ WireCounts.NONE }
    {
        LiveWire {
            rt,
            alloc,
            limits,
            launcher,
            watch,
            backlog: None,
            aim: None,
            silence: None,
            kept: None,
            begun: None,
            address: None,
            error: None,
            unsent: 0,
            faults: 0,
            counts: WireCounts::NONE,
        }
    }

    // Whether as many frames were written as are wanted.
    fn has_enough(&self) -> bool {
        match self.watch {
            Some(watch) => self.limits.frames > 0 && watch.frames() >= self.limits.frames,
            None => false,
        }
    }

    /// Ends its thread, and answers what it has to say.
    pub fn stop(self) -> WireNotes {
        let LiveWire {
            rt,
            alloc: _,
            limits: _,
            launcher: _,
            watch: _,
            backlog,
            aim: _,
            silence: _,
            kept: _,
            begun: _,
            address,
            error,
            unsent,
            faults: _,
            counts: _,
        } = self;
        WireNotes {
            address,
            error,
            unsent,
            backlog: match backlog {
                Some(backlog) => Some(backlog.stop(&rt)),
                None => None,
            },
        }
    }
}

impl<'w, H: Threads + Wait + Net + Clock + Copy> Wire for LiveWire<'w, H> {
    ghost told = { λ w. untold (is_some w.backlog) (is_some w.aim) w.counts };

    ghost faults = { λ w. w.faults };

    fn listen(&mut self, at: &str) -> Reached {
        self.address = format!(in self.alloc; "{at}").ok();
        match Backlog::start(&self.rt, self.alloc, at, self.limits, &self.launcher) {
            Ok(backlog) => {
                let before = mem::replace(&mut self.backlog, Some(backlog));
                self.kept = Instant::now(&self.rt).ok();
                self.begun = self.kept;
                leave(&self.rt, before);
                Reached::Yes
            }
            Err(error) => {
                self.error = Some(error);
                self.faults = self.faults.saturating_add(1);
                Reached::Failed
            }
        }
    }

    fn aim(&mut self, to: &str) -> Reached {
        self.address = format!(in self.alloc; "{to}").ok();
        match aimed(&self.rt, to) {
            Ok(aim) => {
                self.aim = Some(aim);
                Reached::Yes
            }
            Err(error) => {
                self.error = Some(error);
                self.faults = self.faults.saturating_add(1);
                Reached::Failed
            }
        }
    }

    fn send(&mut self, datagram: &[u8]) -> Sent {
        match going_out(&self.aim, datagram) {
            Ok(()) => {
                self.counts.count_sent();
                tell_sent(self.watch, datagram.len());
                Sent::Yes
            }
            Err(error) if is_transient(&error) => {
                self.counts.count_sent();
                self.unsent = self.unsent.saturating_add(1);
                tell_refused(self.watch, self.unsent);
                Sent::Lost
            }
            Err(error) => {
                self.error = Some(error);
                self.faults = self.faults.saturating_add(1);
                Sent::Failed
            }
        }
    }

    fn end_after(&mut self, seconds: u32) {
        self.counts.ask(seconds);
        self.silence = whole(seconds);
    }

    fn keep(&mut self) {
        self.counts.count_kept();
        self.kept = Instant::now(&self.rt).ok();
    }

    fn recv(&mut self, buf: &mut [u8]) -> Came {
        let has_enough = self.has_enough();
        let rt = self.rt;
        let patience = Patience {
            silence: self.silence,
            kept: self.kept,
            whole: whole(self.limits.seconds),
            begun: self.begun,
        };
        if let Some(backlog) = &mut self.backlog {
            let arrival = if has_enough {
                Arrival::Silence
            } else {
                backlog.await_next(&rt, buf, patience)
            };
            tell_came(self.watch, &arrival, backlog.dropped());
            match arrival {
                Arrival::Datagram(count) => return Came::Datagram(count),
                Arrival::Silence => {
                    self.counts.count_end();
                    return Came::End;
                }
                Arrival::Failed(error) => self.error = Some(error),
            }
        }
        self.faults = self.faults.saturating_add(1);
        Came::Failed
    }
}

// For how long it listens, if that has an end.
fn whole(seconds: u32) -> Option<Duration> {
    if seconds == 0 {
        None
    } else {
        Some(Duration::from_secs(u64::from(seconds)))
    }
}

fn leave<H: Threads>(rt: &H, backlog: Option<Backlog>) {
    if let Some(backlog) = backlog {
        backlog.stop(rt);
    }
}

fn aimed<H: Net>(rt: &H, to: &str) -> io::Result<Aim> {
    let Some(to) = to.to_socket_addrs(rt)?.next() else {
        return Err(io::Error::from(io::ErrorKind::NotFound));
    };
    let any = match to {
        SocketAddr::V4(_) => "0.0.0.0:0",
        SocketAddr::V6(_) => "[::]:0",
    };
    let socket = UdpSocket::bind(rt, any)?;
    Ok(Aim { socket, to })
}

fn going_out(aim: &Option<Aim>, datagram: &[u8]) -> io::Result<()> {
    let Some(aim) = aim else {
        return Err(io::Error::from(io::ErrorKind::NotConnected));
    };
    if aim.socket.send_to(datagram, aim.to)? == datagram.len() {
        Ok(())
    } else {
        Err(io::Error::from(io::ErrorKind::WriteZero))
    }
}
