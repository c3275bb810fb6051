//! The examples of the libraries' doc comments, word for word: `tests/doc-examples` compares them. `rt` is the runtime
//! that a test or `main` receives, and `alloc` its allocator, `rt.alloc()`.
//!
//! Each function contains one example, or several of one type, after the line that makes `alloc`.
mod run;
