// A step of a hub, under the path by which callers know it. It stands in `hub_steps`.
pub use hub_steps::step;
