//! How captures of real clusters, and handmade bytes, are read.

mod captures;
mod flows;
mod frames;
