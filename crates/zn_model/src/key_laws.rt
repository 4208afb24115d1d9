// Laws on the keys of handles, each the contract of a function that does nothing.
ghost use Rattle.zn_model.specs.Keys.{CallsIgnoreKeys, CallsUseOnce, CallsKeepHandles};

/// No call on a volume depends on the keys of handles.
pub fn calls_ignore_keys()
    ensures { CallsIgnoreKeys }
{}

/// Each call keeps generations used once.
pub fn calls_use_once()
    ensures { CallsUseOnce }
{}

/// No call but an open and a close changes the handles.
pub fn calls_keep_handles()
    ensures { CallsKeepHandles }
{}
