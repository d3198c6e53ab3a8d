// Making a hub, under the path by which callers know it. It stands in `hub_making`.
pub use hub_making::make;
