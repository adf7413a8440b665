// Reading the list of ways.
use anyhow::anyhow;
use std::fs;

// The numbers of a text file, parted by white space.
pub(crate) fn read_ways(rt: &HostRuntime, path: &str) -> anyhow::Result<Vec<u32>> {
    let text = fs::read_to_string(rt, path).map_err(|error| anyhow!("{path}: {error}"))?;
    let mut ways = Vec::new(rt.alloc());
    for word in text.as_str().split_whitespace() {
        let count = ways.len();
        let way = word.parse::<u32>().map_err(|_| anyhow!(
            "{path}: '{word}', after {count} ways, is not a way number"
        ))?;
        ways.push(way)?;
    }
    Ok(ways)
}
