//! What help tells of scripts.

/// What the lines of a script are.
pub(crate) const SCRIPT: &str = "Headers, before the first step:
  limit N             records of the journal, 1 to 10000000 (1000000)
  sendq N             items that wait for a session, 1 to 4096 (256)
  workers N           workers, 1 to 64 (2)
  sessions N          open sessions, 1 to 1024 (1024)
  motd TEXT           one more line of the message of the day
  account NAME SALT DIGEST
                      one more account, as a line of an accounts file

Steps of a session S, a worker W and a moment MS:
  connect HOST MS     open a session
  feed S \"TEXT\"       give octets to a session
  pick W S            hand a session's next line to a worker
  begin W MS          accept the worker's line, and take the lock
  put W               put the next delivery
  end W               give the lock and the session back
  back W              give back a line that wasn't begun
  take S              take what is next due to a session
  hang W S WORD MS    end a session: quit, sendq, ended, readfail, writefail, memory, shutdown or
                      timeout
  sweep W MS          say that a session that was shut is gone, and take the lock
  tick W MS           have a PING put for whoever is silent, and take the lock
  reap S              give up a session that is gone
  do S MS             worker 1: pick, begin, put all, end
  tidy MS             worker 1: sweep, put all, end
  beat MS             worker 1: tick, put all, end, and hang each session that was silent for too long
  drain S             take until nothing is left";
