// A command and its replies, as people read them.
use crate::cards::{Cards, Replies};
use apdu::Status;
use show::{Reply, SpacedPairs};

// What stands before a reply's status word.
pub fn data_of(reply: &[u8]) -> &[u8] {
    match reply {
        [data @ .., _, _] => data,
        _ => &[],
    }
}

// Whether a session's block was taken with a second byte that is odd: a command is complete, or an answer goes on.
pub fn is_marked(reply: &[u8]) -> bool {
    let status = reply.last_chunk().map(|bytes| Status::try_from(*bytes));
    matches!(status, Some(Ok(Status::Taken(sw2))) if sw2 % 2 == 1)
}

// Shows a command and the reply that both cards give: in one line where it is a status word alone.
fn show_alike(rt: &HostRuntime, command: &[u8], reply: &[u8]) -> anyhow::Result<()> {
    let (sent, came) = (SpacedPairs(command), Reply(reply));
    if reply.len() == 2 {
        println!(rt; "  > {sent}  < {came}")?;
        return Ok(());
    }
    println!(rt; "  > {sent}")?;
    println!(rt; "  < {came}")?;
    Ok(())
}

// Shows a command and the two replies.
fn show_apart(rt: &HostRuntime, command: &[u8], replies: &Replies) -> anyhow::Result<()> {
    println!(rt; "  > {}", SpacedPairs(command))?;
    println!(rt; "  < left  {}", Reply(replies.left.as_slice()))?;
    println!(rt; "  < right {}", Reply(replies.right.as_slice()))?;
    Ok(())
}

// Sends a command to both cards, and shows what passes over the line.
pub fn send(cards: &mut Cards<'_>, command: &[u8]) -> anyhow::Result<Replies> {
    let replies = cards.send(command)?;
    if replies.left.as_slice() == replies.right.as_slice() {
        show_alike(cards.rt, command, replies.left.as_slice())?;
    } else {
        show_apart(cards.rt, command, &replies)?;
    }
    Ok(replies)
}
