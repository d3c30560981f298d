//! What a message says of its line, as a function that does nothing.
ghost use Rattle.websocket_front.specs.Frames.{LinesStay};

/// A line goes out as it is, on binary, and on text where it is UTF-8.
pub fn lines_stay()
    ensures { LinesStay }
{}
