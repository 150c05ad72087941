//! Kernels from their texts.
use kernel_ast::Kernel;
use kernel_parser::parse;
use std::alloc::Global;
use std::test::Fail;

/// The kernel of a text without fault.
pub fn kernel(alloc: Global, text: &[u8]) -> Result<Kernel, Fail> {
    Ok(parse(alloc, text)?)
}
