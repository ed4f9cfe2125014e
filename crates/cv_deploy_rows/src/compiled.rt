//! What a script is compiled to, as text.

use cv_deploy::{NoNetwork, compile};
use cv_network::network_text;
use std::alloc::Global;
use std::process::Abort;
use std::test::Fail;

/// The text of the network that a source stands for, or `LINE:COLUMN CODE`.
pub fn compiled(rt: &impl Abort, alloc: Global, source: &str) -> Result<String, Fail> {
    assert!(rt; source.len() < 1_000_000);
    let fault = match compile(alloc, source.as_bytes()) {
        Ok(net) => return Ok(String::from_str(alloc, network_text(alloc, &net)?.as_str())?),
        Err(NoNetwork::Script(fault)) => fault,
        Err(NoNetwork::OutOfMemory) => return Ok(String::from_str(alloc, "memory")?),
    };
    let (line, col, code) = (fault.line, fault.col, fault.code.word());
    Ok(format!(in alloc; "{line}:{col} {code}")?)
}

/// Checks what each source is compiled to.
pub fn check_rows(rt: &impl Abort, alloc: Global, rows: &[(&str, &str)]) -> Result<(), Fail> {
    for row in rows {
        let (source, expected) = *row;
        let found = compiled(rt, alloc, source)?;
        assert_eq!(rt; found.as_str(), expected);
    }
    Ok(())
}
