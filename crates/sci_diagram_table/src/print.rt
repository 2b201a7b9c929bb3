// What several answers have.
use anyhow::bail;
use sci_base::Stop;
use sci_net::Feed;

/// Prints the rule that is broken, where, and the numbers that tell how.
pub fn show_stop(rt: &impl Print, stop: &Stop) -> anyhow::Result<()> {
    match stop {
        Stop::Refused(refusal) => {
            let rule = refusal.rule.name();
            let place = refusal.place.path.as_slice();
            let detail = refusal.detail.as_slice();
            println!(rt; " -> refused {rule} at {place:?} with {detail:?}")?;
            Ok(())
        }
        Stop::Memory => bail!("out of memory"),
    }
}

/// Prints activation outputs, each as its block and its port.
pub fn show_feeds(rt: &impl Print, feeds: &[Feed]) -> std::io::Result<()> {
    for feed in feeds {
        let (block, port) = (feed.block, feed.port);
        print!(rt; " {block}.{port}")?;
    }
    Ok(())
}
